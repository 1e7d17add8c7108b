// A dsqdata set: index, metadata and sequence file. The check of a whole set, and the lookup of one sequence.
// Every public function takes any bytes.
#![tactic(auto)]

ghost use Rattle.std.specs.Prelude.{◌≡◌, ◌≤◌, ◌<◌, length};
ghost use Rattle.laws.specs.Rules.{AllHold};
ghost use Rattle.answers.specs.Limits.{checked_by};
ghost use Rattle.dsqdata.specs.Header.{record_of};
ghost use Rattle.dsqdata.specs.Ends.{metadata_table, packet_table};
ghost use Rattle.dsqdata.specs.Check.{order_number, content_rules, set_check};
ghost use Rattle.dsqdata.specs.Lookup.{part_rules, found_at, lookup_of};

use answers::{MOST_BYTES, Refusal};
use ends::Ends;
use fields::Order;
use packets::{BytePos, PacketPos};

mod ends;
mod header;
mod records;
mod set_runs;

// The ten header fields of a set, in file order, and the byte order of its files.
#[derive(Clone, Copy)]
pub struct SetRecord {
    pub magic: u32,
    pub tag: u32,
    pub alphabet: u32,
    pub flags: u32,
    pub longest_name: u32,
    pub longest_accession: u32,
    pub longest_description: u32,
    pub longest_sequence: u64,
    pub count: u64,
    pub residues: u64,
    pub order: Order,
}

// The three files of a set.
#[derive(Clone, Copy)]
pub(crate) struct Files<'a> {
    pub(crate) index: &'a [u8],
    pub(crate) metadata: &'a [u8],
    pub(crate) sequence: &'a [u8],
}

// A set of few sequences, no file of which is too long: its files, and the record that its index states.
#[derive(Clone, Copy)]
pub(crate) struct ReadSet<'a> {
    pub(crate) files: Files<'a>,
    pub(crate) stated: SetRecord,
    ghost as_read: { stated ≡ record_of stated.order files.index.now },
    ghost few: { stated.count ≤ 134217728 },
    ghost short: { length files.sequence.now ≤ 2147483647 },
}

// Where one sequence stands, counted after the headers as the ends are: the start of its metadata and its length in bytes, the start of
// its run and its length in packets.
#[derive(Clone, Copy)]
pub struct Located {
    pub start: BytePos,
    pub bytes: u64,
    pub run: PacketPos,
    pub packets: u64,
}

// The number that tells a byte order: 0 little-endian, 1 big-endian.
pub fn order_number(order: Order) -> u64
    ensures { result ≡ order_number order }
{
    match order {
        Order::Little => 0,
        Order::Big => 1,
    }
}

// The rules of the ends, the runs, the metadata records and the totals.
#[tactic(auto, using(crate::proofs::Chain::parts), unfolding(crate::specs::Check::content_rules, crate::specs::Check::rest_rules, crate::specs::Scans::runs_to))]
fn check_content(set: &ReadSet) -> Result<(), Refusal>
    ensures { result ≡ checked_by (content_rules set.now.stated.order set.now.files.index.now set.now.files.metadata.now set.now.files.sequence.now) }
{
    let ReadSet { files, stated, .. } = *set;
    let n = stated.count as usize;
    let bytes = header::bytes_after_header(files.metadata);
    Ends::metadata(stated.order, files.index).check(n, bytes)?;
    let packets = header::bytes_after_header(files.sequence) / 4;
    Ends::packets(stated.order, files.index).check(n, packets)?;
    let totals = set_runs::check_runs(set)?;
    records::check_rest(set, totals)
}

// Checks a whole set, in the byte order that its index shows; passing returns its record.
#[tactic(auto, using(crate::proofs::Chain::parts), unfolding(crate::specs::Check::set_check, crate::specs::Check::set_rules))]
pub fn check_set(index: &[u8], metadata: &[u8], sequence: &[u8]) -> Result<SetRecord, Refusal>
    ensures { result ≡ set_check index.now metadata.now sequence.now }
{
    let order = header::order_of(index);
    let files = Files {
        index,
        metadata,
        sequence,
    };
    header::check_files(order, &files)?;
    let stated = header::read_record(order, index);
    header::check_layout(&files, stated)?;
    check_content(&ReadSet { files, stated })?;
    Ok(stated)
}

// What a lookup answers whose rules hold: start and length of metadata and run.
fn found_at(order: Order, index: &[u8], k: usize) -> Located
    requires k_bound { k < 134217728 }
    requires all_hold { AllHold (part_rules order index.now metadata_table k) × AllHold (part_rules order index.now packet_table k) }
    ensures { result ≡ found_at order index.now k }
{
    let metadata = Ends::metadata(order, index);
    let packets = Ends::packets(order, index);
    let start = metadata.start(k);
    let run = packets.start(k);
    Located {
        start: BytePos(start),
        bytes: metadata.start(k + 1) - start,
        run: PacketPos(run),
        packets: packets.start(k + 1) - run,
    }
}

// Finds the metadata and the run of one sequence, by the record that the check returned and the index, read in the record's byte order.
#[tactic(auto, using(crate::proofs::Chain::parts), unfolding(crate::specs::Lookup::lookup_of, crate::specs::Lookup::lookup_rules))]
pub fn lookup(set: SetRecord, index: &[u8], number: u64) -> Result<Located, Refusal>
    ensures { result ≡ lookup_of set index.now number }
{
    if index.len() > MOST_BYTES {
        return Err(Refusal::TooLarge);
    }
    header::check_count(index, set.count)?;
    if number >= set.count {
        return Err(Refusal::NoSuchSequence);
    }
    let order = set.order;
    let k = number as usize;
    Ends::metadata(order, index).check_part(k)?;
    Ends::packets(order, index).check_part(k)?;
    Ok(found_at(order, index, k))
}
