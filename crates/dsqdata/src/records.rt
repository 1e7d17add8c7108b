// The rules of a set behind its runs: the metadata records and the stated totals.
ghost use Rattle.std.specs.Prelude.{◌≡◌, ◌≤◌};
ghost use Rattle.answers.specs.Limits.{checked_by};
ghost use Rattle.dsqdata.specs.Ends.{metadata_start};
ghost use Rattle.dsqdata.specs.Check.{stated_rules, behind_runs};
ghost use Rattle.dsqdata.specs.Scans.{records_to};

use crate::ends::Ends;
use crate::header::FILE_HEADER;
use crate::set_runs::Totals;
use crate::{ReadSet, SetRecord};
use answers::Refusal;
use fields::Order;
use metadata::Texts;
use packets::BytePos;

// The byte of the metadata file where the record of number k begins.
fn record_start(order: Order, index: &[u8], k: usize) -> BytePos
    requires { k ≤ 134217728 }
    ensures { result.0 ≡ metadata_start order index.now k }
{
    BytePos(FILE_HEADER as u64 + Ends::metadata(order, index).start(k))
}

// Reads all metadata records between the metadata ends: the longest name, accession and description.
fn check_records(set: &ReadSet) -> Result<Texts, Refusal>
    ensures { result ≡ records_to set.now.stated.order set.now.files.index.now set.now.files.metadata.now set.now.stated.count }
{
    let ReadSet { files, stated, .. } = *set;
    let mut name: usize = 0;
    let mut accession: usize = 0;
    let mut description: usize = 0;
    let mut from = BytePos(FILE_HEADER as u64);
    for k in 0..stated.count as usize {
        let to = record_start(stated.order, files.index, k + 1);
        let record = metadata::read_record(stated.order, files.metadata, from, to);
        let texts = record.ok_or(Refusal::BadMetadata)?;
        name = name.max(texts.name);
        accession = accession.max(texts.accession);
        description = description.max(texts.description);
        from = to;
    }
    Ok(Texts {
        name,
        accession,
        description,
    })
}

// The rules of the total of residues and of the longest sequence, name, accession and description.
#[tactic(auto, unfolding(crate::specs::Check::stated_rules))]
fn check_totals(set: SetRecord, totals: Totals, longest: Texts) -> Result<(), Refusal>
    ensures { result ≡ checked_by (stated_rules set totals.residues totals.longest longest.name longest.accession longest.description) }
{
    if totals.residues as u64 != set.residues
        || totals.longest as u64 != set.longest_sequence
        || longest.name != set.longest_name as usize
        || longest.accession != set.longest_accession as usize
        || longest.description != set.longest_description as usize
    {
        return Err(Refusal::WrongTotals);
    }
    Ok(())
}

// The rules behind the runs, of which these are the totals.
#[tactic(auto, using(crate::proofs::Chain::parts), unfolding(crate::specs::Check::behind_runs, crate::specs::Check::total_rules, crate::specs::Scans::records_to))]
pub(crate) fn check_rest(set: &ReadSet, totals: Totals) -> Result<(), Refusal>
    ensures { result ≡ checked_by (behind_runs set.now.stated.order set.now.files.index.now set.now.files.metadata.now totals.residues totals.longest) }
{
    let longest = check_records(set)?;
    check_totals(set.stated, totals, longest)
}
