// The runs of a set, read one after another: whether each is well formed, and how many residues it has.
ghost use Rattle.std.specs.Prelude.{◌≡◌, ◌≤◌, ◌<◌};
ghost use Rattle.std.proofs.Math.Seq.{slice};
ghost use Rattle.laws.specs.Rules.{AllHold};
ghost use Rattle.packets.specs.Reading.{run_length};
ghost use Rattle.dsqdata.specs.Header.{packets_in, body_of};
ghost use Rattle.dsqdata.specs.Ends.{packet_table};
ghost use Rattle.dsqdata.specs.Check.{ends_rules};
ghost use Rattle.dsqdata.specs.Scans.{runs_to};

use crate::ReadSet;
use crate::ends::Ends;
use crate::header::FILE_HEADER;
use answers::Refusal;
use packets::PacketPos;

// All runs: the total of residues and the longest.
#[derive(Clone, Copy)]
pub(crate) struct Totals {
    pub(crate) residues: usize,
    pub(crate) longest: usize,
}

// Reads the run of the packets from one place up to, not including, another.
fn read_run(set: &ReadSet, from: PacketPos, to: PacketPos) -> Option<usize>
    requires { (from.0 < to.0) × (to.0 ≤ packets_in set.now.files.sequence.now) }
    ensures { result ≡ run_length set.now.stated.alphabet (slice from.0 to.0 (body_of set.now.stated.order set.now.files.sequence.now)) }
{
    let ReadSet { files, stated, .. } = *set;
    let start = packets::byte_of(from, FILE_HEADER as u64);
    let end = packets::byte_of(to, FILE_HEADER as u64);
    let bytes = &files.sequence[start.0 as usize..end.0 as usize];
    byte_runs::read_run(stated.order, stated.alphabet, bytes)
}

// Reads all runs between the packet ends.
pub(crate) fn check_runs(set: &ReadSet) -> Result<Totals, Refusal>
    requires { AllHold (ends_rules set.now.stated.order set.now.files.index.now packet_table set.now.stated.count (packets_in set.now.files.sequence.now)) }
    ensures { result ≡ runs_to set.now.stated.order set.now.files.index.now set.now.files.sequence.now set.now.stated.alphabet set.now.stated.count }
{
    let ReadSet { files, stated, .. } = *set;
    let mut residues: usize = 0;
    let mut longest: usize = 0;
    let mut from = PacketPos(0);
    for k in 0..stated.count as usize {
        let to = PacketPos(Ends::packets(stated.order, files.index).start(k + 1));
        let count = read_run(set, from, to).ok_or(Refusal::BadRun)?;
        residues += count;
        longest = longest.max(count);
        from = to;
    }
    Ok(Totals { residues, longest })
}
