// One sequence of a volume decoded into Easel codes. Everything is checked before anything is written.
#![tactic(auto)]

mod bases;
mod corrections;
mod entries;
mod table;

ghost use Rattle.std.specs.Prelude.{◌≡◌, ◌≤◌, length};
ghost use Rattle.volume.specs.Index.{sequences, index_of};
ghost use Rattle.sequence.specs.Sequence.{own_answer, residues_of, written_by, decode_answer, decode_output};

use answers::{MOST_BYTES, Refusal};
use entries::{decode_dna, decode_protein, dna_entry, protein_entry};
use fields::not_negative_at;
use volume::Index;

// What a sequence's own entries in the tables state, as places: where its bytes start and end, and where those of the next start.
#[derive(Clone, Copy)]
pub struct Entry {
    pub start: usize,
    pub end: usize,
    pub next: usize,
}

// How many bytes an entry of an ambiguity range has: 4 or 8.
#[derive(Clone, Copy)]
pub(crate) enum Width {
    Narrow,
    Wide,
}

// The entries of an ambiguity range: where the first starts, how wide each is, and how many they are.
#[derive(Clone, Copy)]
pub(crate) struct RangeEntries {
    pub start: usize,
    pub width: Width,
    pub count: usize,
}

// A correction: so many residues from a start on have an ambiguity value.
#[derive(Clone, Copy)]
pub struct Correction {
    pub value: u8,
    pub start: usize,
    pub length: usize,
}

// Decodes a sequence of an index that was read.
#[tactic(auto, using(crate::proofs::Answers::numbers_near, volume::proofs::Reading::numbers_are))]
fn decode_own(
    index: &[u8],
    sequence: &[u8],
    x: Index,
    number: u64,
    out: &mut [u8],
) -> Result<usize, Refusal>
    requires { (x ≡ index_of index.now) × (length sequence.now ≤ 2147483647) }
    ensures value { result ≡ own_answer index.now sequence.now number (length out.old) }
    ensures out_after { out.new ≡ written_by result (residues_of index.now sequence.now number) out.old }
{
    if x.sequences as u64 <= number {
        return Err(Refusal::NoSuchSequence);
    }
    let i = number as usize;
    if x.kind == 1 {
        return decode_protein(sequence, protein_entry(index, x, i), out);
    }
    let table = x.sequence_table;
    if !not_negative_at(index, table + 4 * i) {
        return Err(Refusal::BadOffsets);
    }
    decode_dna(sequence, dna_entry(index, x, i), out)
}

// Decodes the sequence of a number into the first bytes of the output, and answers how many residues it has. On a refusal the output is left as it was.
pub fn decode(index: &[u8], sequence: &[u8], number: u64, out: &mut [u8]) -> Result<usize, Refusal>
    ensures value { result ≡ decode_answer index.now sequence.now number (length out.old) }
    ensures out_after { out.new ≡ decode_output index.now sequence.now number out.old }
{
    if MOST_BYTES < sequence.len() {
        return Err(Refusal::TooLarge);
    }
    let x = volume::read_index(index)?;
    decode_own(index, sequence, x, number, out)
}
