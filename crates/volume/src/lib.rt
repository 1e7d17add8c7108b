// A version 4 volume: its index, the lengths of its sequences, and the check of the whole volume.
// Offsets, lengths and counts are signed in the file. Every public function takes any bytes.
#![tactic(auto)]

mod fixed;
mod tables;

ghost use Rattle.std.specs.Prelude.{◌≡◌, length};
ghost use Rattle.answers.specs.Limits.{checked_by};
ghost use Rattle.volume.specs.Index.{index_answer};
ghost use Rattle.volume.specs.Tables.{length_of_number};
ghost use Rattle.volume.specs.Volume.{volume_size_rules, trimmed_length, volume_answer};

use answers::{MOST_BYTES, Refusal};
use fixed::{Fields, numbers};
pub use tables::two_bit_length;
use tables::{Tables, place};

// The numbers of an index, lengths as the file states them, and the places of its tables.
#[derive(Clone, Copy)]
pub struct Index {
    pub kind: usize,
    pub title_length: usize,
    pub timestamp_length: usize,
    pub sequences: usize,
    pub residues: usize,
    pub longest: usize,
    pub header_table: usize,
    pub sequence_table: usize,
    pub ambiguity_table: usize,
}

// What the check of a volume returns: its numbers, and where title and timestamp stand in the index.
#[derive(Clone, Copy)]
pub struct VolumeRecord {
    pub kind: usize,
    pub sequences: usize,
    pub residues: usize,
    pub longest: usize,
    pub title_start: usize,
    pub title_length: usize,
    pub timestamp_start: usize,
    pub timestamp_length: usize,
}

// Reads an index alone: 22, then 1 to 6.
pub fn read_index(index: &[u8]) -> Result<Index, Refusal>
    ensures { result ≡ index_answer index.now }
{
    if MOST_BYTES < index.len() {
        return Err(Refusal::TooLarge);
    }
    let fields = Fields::of(index);
    fields.check()?;
    Ok(fields.numbers)
}

// The sizes of the files, 22.
fn check_sizes(index: &[u8], sequence: &[u8], header: &[u8]) -> Result<(), Refusal>
    ensures { result ≡ checked_by (volume_size_rules index.now sequence.now header.now) }
{
    if MOST_BYTES < index.len() || MOST_BYTES < sequence.len() || MOST_BYTES < header.len() {
        return Err(Refusal::TooLarge);
    }
    Ok(())
}

// How many bytes of a text are left without the NULs at its end. It is never made a part of its caller, where the compiler keeps the place in memory.
#[inline(never)]
fn trimmed(text: &[u8]) -> usize
    ensures { result ≡ trimmed_length text.now 0 (length text.now) }
{
    match text.iter().rposition(|&byte| byte != 0) {
        Some(last) => last + 1,
        None => 0,
    }
}

// The check of a whole volume: its numbers, and where title and timestamp stand in the index.
pub fn check_volume(index: &[u8], sequence: &[u8], header: &[u8]) -> Result<VolumeRecord, Refusal>
    ensures { result ≡ volume_answer index.now sequence.now header.now }
{
    check_sizes(index, sequence, header)?;
    let numbers = read_index(index)?;
    Tables { index, numbers }.check(sequence, header)?;
    let start = 12 + numbers.title_length + 4;
    let end = start + numbers.timestamp_length;
    Ok(VolumeRecord {
        kind: numbers.kind,
        sequences: numbers.sequences,
        residues: numbers.residues,
        longest: numbers.longest,
        title_start: 12,
        title_length: numbers.title_length,
        timestamp_start: start,
        timestamp_length: trimmed(&index[start..end]),
    })
}

// The length of a sequence by its number; 0 where there is no sequence of that number.
#[tactic(auto, using(crate::proofs::Reading::tables_near), unfolding(crate::specs::Index::index_of, crate::specs::Tables::length_of_number))]
pub fn sequence_length(index: &[u8], sequence: &[u8], number: usize) -> usize
    ensures { result ≡ length_of_number index.now sequence.now number }
{
    let x = numbers(index);
    if x.sequences <= number {
        return 0;
    }
    let start = place(index, x.sequence_table, number);
    if x.kind == 1 {
        let next = place(index, x.sequence_table, number + 1);
        return next.saturating_sub(1).saturating_sub(start);
    }
    let end = place(index, x.ambiguity_table, number);
    two_bit_length(sequence, start as u32, end as u32)
}
