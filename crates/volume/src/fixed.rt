// The fixed fields of an index, each at the place that the fields before it give, and their rules.
ghost use Rattle.std.specs.Prelude.{◌≡◌, ◌<◌, pos};
ghost use Rattle.laws.specs.Signed.{eq_z};
ghost use Rattle.fields.specs.Number.{big, signed_at};
ghost use Rattle.answers.specs.Limits.{checked_by};
ghost use Rattle.volume.specs.Index.{is_type, title_end, timestamp_end, tables_end};
ghost use Rattle.volume.specs.Index.{title_rules, timestamp_rules, count_rules, table_rules, index_rules, index_of};

use super::Index;
use answers::Refusal;
use fields::{Order, natural_at, not_negative_at, read};

// The most sequences of a volume.
const MOST_SEQUENCES: usize = 134217728;

// The timestamp ends at a multiple of this.
const TIMESTAMP_ALIGNMENT: usize = 4;

// Whether the integer at a place is a given size.
pub(crate) fn states_at(index: &[u8], at: usize, size: usize) -> bool
    ensures { result ≡ eq_z (signed_at big 4 index.now at) (pos size) }
{
    let n = read::<i32>(Order::Big, index, at);
    !n.is_negative() && n as usize == size
}

// Whether the type is 0 or 1.
fn has_type(index: &[u8]) -> bool
    ensures { result ≡ is_type index.now }
{
    states_at(index, 4, 0) || states_at(index, 4, 1)
}

// The numbers of an index, of any bytes. Each is read once, and the place of the next is made of it.
#[tactic(auto, unfolding(crate::specs::Index::index_of, crate::specs::Index::volume_type, crate::specs::Index::title_length, crate::specs::Index::timestamp_length, crate::specs::Index::sequences, crate::specs::Index::residue_count, crate::specs::Index::longest))]
pub(crate) fn numbers(index: &[u8]) -> Index
    ensures { result ≡ index_of index.now }
{
    let title = natural_at(index, 8);
    let timestamp = natural_at(index, 12 + title);
    let at = 12 + title + 4 + timestamp;
    let n = natural_at(index, at);
    let size = 4 * (n + 1);
    Index {
        kind: natural_at(index, 4),
        title_length: title,
        timestamp_length: timestamp,
        sequences: n,
        residues: read::<i64>(Order::Little, index, at + 4).max(0) as usize,
        longest: natural_at(index, at + 12),
        header_table: at + 16,
        sequence_table: at + 16 + size,
        ambiguity_table: at + 16 + size + size,
    }
}

// An index of any bytes, with its numbers.
#[derive(Clone, Copy)]
pub(crate) struct Fields<'a> {
    index: &'a [u8],
    pub(crate) numbers: Index,
    ghost read: { numbers ≡ index_of index.now },
}

#[tactic(auto, using(crate::proofs::Reading::tables_near), unfolding(crate::specs::Index::index_of))]
impl<'a> Fields<'a> {
    pub(crate) fn of(index: &'a [u8]) -> Self
        ensures { result.index.now ≡ index.now }
    {
        Fields {
            index,
            numbers: numbers(index),
        }
    }

    // The place behind the title.
    fn title_end(&self) -> usize
        ensures { result ≡ title_end self.now.index.now }
    {
        12 + self.numbers.title_length
    }

    // The place behind the timestamp.
    fn timestamp_end(&self) -> usize
        ensures value { result ≡ timestamp_end self.now.index.now }
        ensures small { result < 4294967312 }
    {
        self.title_end() + 4 + self.numbers.timestamp_length
    }

    // The place behind the tables: two for protein, three for DNA.
    fn tables_end(&self) -> usize
        ensures { result ≡ tables_end self.now.index.now }
    {
        let x = self.numbers;
        if x.kind == 1 {
            x.ambiguity_table
        } else {
            x.ambiguity_table + 4 * (x.sequences + 1)
        }
    }

    // Version, type, title length and title.
    fn check_title(&self) -> Result<(), Refusal>
        ensures { result ≡ checked_by (title_rules self.now.index.now) }
    {
        let index = self.index;
        if index.len() < 4 {
            return Err(Refusal::TooShort);
        }
        if !states_at(index, 0, 4) {
            return Err(Refusal::WrongVersion);
        }
        if index.len() < 8 {
            return Err(Refusal::TooShort);
        }
        if !has_type(index) {
            return Err(Refusal::WrongKind);
        }
        if index.len() < 12 {
            return Err(Refusal::TooShort);
        }
        if !not_negative_at(index, 8) {
            return Err(Refusal::OutOfRange);
        }
        if index.len() < self.title_end() {
            return Err(Refusal::TooShort);
        }
        Ok(())
    }

    // Timestamp length and timestamp.
    fn check_timestamp(&self) -> Result<(), Refusal>
        ensures { result ≡ checked_by (timestamp_rules self.now.index.now) }
    {
        let index = self.index;
        let start = self.title_end();
        let end = self.timestamp_end();
        if index.len() < start + 4 {
            return Err(Refusal::TooShort);
        }
        if !not_negative_at(index, start) {
            return Err(Refusal::OutOfRange);
        }
        if index.len() < end {
            return Err(Refusal::TooShort);
        }
        if end % TIMESTAMP_ALIGNMENT != 0 {
            return Err(Refusal::Misaligned);
        }
        Ok(())
    }

    // N, residue count and longest.
    fn check_counts(&self) -> Result<(), Refusal>
        ensures { result ≡ checked_by (count_rules self.now.index.now) }
    {
        let index = self.index;
        let at = self.timestamp_end();
        if index.len() < at + 4 {
            return Err(Refusal::TooShort);
        }
        if !not_negative_at(index, at) || MOST_SEQUENCES < self.numbers.sequences {
            return Err(Refusal::OutOfRange);
        }
        if index.len() < at + 12 {
            return Err(Refusal::TooShort);
        }
        if read::<i64>(Order::Little, index, at + 4).is_negative() {
            return Err(Refusal::OutOfRange);
        }
        if index.len() < at + 16 {
            return Err(Refusal::TooShort);
        }
        if !not_negative_at(index, at + 12) {
            return Err(Refusal::OutOfRange);
        }
        Ok(())
    }

    // The tables, and nothing after them.
    fn check_tables(&self) -> Result<(), Refusal>
        ensures { result ≡ checked_by (table_rules self.now.index.now) }
    {
        let end = self.tables_end();
        if self.index.len() < end {
            return Err(Refusal::TooShort);
        }
        if end < self.index.len() {
            return Err(Refusal::Leftover);
        }
        Ok(())
    }

    // The rules of an index alone, 1 to 6.
    pub(crate) fn check(&self) -> Result<(), Refusal>
        ensures { result ≡ checked_by (index_rules self.now.index.now) }
    {
        self.check_title()?;
        self.check_timestamp()?;
        self.check_counts()?;
        self.check_tables()
    }
}
