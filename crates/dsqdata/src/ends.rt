// The ends of a set's metadata records and runs, which the index has in two tables: per sequence, the metadata's and then the packets'.
// Ends count after the header of their file, those of metadata in bytes and those of packets in packets; so do the places made from them.
ghost use Rattle.std.specs.Prelude.{◌≡◌, ◌≤◌, ◌<◌};
ghost use Rattle.answers.specs.Limits.{checked_by};
ghost use Rattle.packets.specs.Ends.{after};
ghost use Rattle.dsqdata.specs.Ends.{metadata_table, packet_table, end_before};
ghost use Rattle.dsqdata.specs.Check.{ends_rules};
ghost use Rattle.dsqdata.specs.Lookup.{part_rules, start_at};

use answers::Refusal;
use fields::{Order, read};

// Where the tables of the metadata's and of the packets' ends begin in the index, and the bytes from one end of a table to the next.
const METADATA_TABLE: usize = 52;

const PACKET_TABLE: usize = 60;

pub(crate) const ENDS: usize = 16;

// A table of ends: where it begins in an index, which has the byte order of its set.
#[derive(Clone, Copy)]
pub(crate) struct Ends<'a> {
    order: Order,
    index: &'a [u8],
    table: usize,
    ghost near: { table ≤ 60 },
}

// How many bytes or packets there are up to an end and with it.
fn count_to(end: i64) -> u64
    ensures value { result ≡ after end }
    ensures most { result ≤ 9223372036854775808 }
{
    if end < 0 { 0 } else { end as u64 + 1 }
}

impl<'a> Ends<'a> {
    // The table of the metadata's ends, and that of the packets'.
    pub(crate) fn metadata(order: Order, index: &'a [u8]) -> Ends<'a>
        ensures { (result.order ≡ order) × (result.index.now ≡ index.now) × (result.table ≡ metadata_table) }
    {
        Ends {
            order,
            index,
            table: METADATA_TABLE,
        }
    }

    pub(crate) fn packets(order: Order, index: &'a [u8]) -> Ends<'a>
        ensures { (result.order ≡ order) × (result.index.now ≡ index.now) × (result.table ≡ packet_table) }
    {
        Ends {
            order,
            index,
            table: PACKET_TABLE,
        }
    }

    // The end before number k, which is that of number k - 1; before the first stands -1.
    fn before(&self, k: usize) -> i64
        requires { k ≤ 134217728 }
        ensures { result ≡ end_before self.now.order self.now.index.now self.now.table k }
    {
        if k == 0 {
            return -1;
        }
        read::<i64>(self.order, self.index, self.table + ENDS * (k - 1))
    }

    // The byte or packet where the part of number k begins, which is the one behind the part before.
    pub(crate) fn start(&self, k: usize) -> u64
        requires { k ≤ 134217728 }
        ensures value { result ≡ start_at self.now.order self.now.index.now self.now.table k }
        ensures most { result ≤ 9223372036854775808 }
    {
        count_to(self.before(k))
    }

    // The rules of n ends over a body of `size` bytes or packets.
    pub(crate) fn check(&self, n: usize, size: usize) -> Result<(), Refusal>
        requires { n ≤ 134217728 }
        ensures { result ≡ checked_by (ends_rules self.now.order self.now.index.now self.now.table n size) }
    {
        let Ends {
            order,
            index,
            table,
            ..
        } = *self;
        let mut before: i64 = -1;
        for k in 0..n {
            // Read in place and not by `before`, so that no turn has a call.
            let end = read::<i64>(order, index, table + ENDS * k);
            if before >= end {
                return Err(Refusal::BadOffsets);
            }
            before = end;
        }
        if count_to(before) != size as u64 {
            return Err(Refusal::BadOffsets);
        }
        Ok(())
    }

    // The rules that a lookup asks of the end of number k and of the one before it.
    pub(crate) fn check_part(&self, k: usize) -> Result<(), Refusal>
        requires { k < 134217728 }
        ensures { result ≡ checked_by (part_rules self.now.order self.now.index.now self.now.table k) }
    {
        let before = self.before(k);
        let end = self.before(k + 1);
        if before < -1 || before >= end || end > 2147483646 {
            return Err(Refusal::BadOffsets);
        }
        Ok(())
    }
}
