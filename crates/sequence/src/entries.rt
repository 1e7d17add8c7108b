// A sequence by the places that its own entries in the tables state: its rules, its length, and its residues written.
ghost use Rattle.std.specs.Prelude.{◌≡◌, ◌+◌, ◌/◌, ◌≤◌, ◌<◌, length};
ghost use Rattle.answers.specs.Limits.{checked_by};
ghost use Rattle.volume.specs.Index.{index_of};
ghost use Rattle.sequence.specs.Sequence.{written_by};
ghost use Rattle.sequence.specs.Placed.{protein_entry, dna_entry, protein_place_rules, dna_place_rules};
ghost use Rattle.sequence.specs.Placed.{placed_protein_answer, placed_protein_residues, placed_dna_answer, placed_dna_residues};

use super::Entry;
use super::bases::{are_proteins, write_bases, write_proteins};
use super::corrections::{check_table, correct};
use answers::Refusal;
use fields::natural_at;
use volume::{Index, two_bit_length};

// The entries of a protein sequence.
#[tactic(auto, using(crate::proofs::Answers::numbers_near))]
pub(crate) fn protein_entry(index: &[u8], x: Index, i: usize) -> Entry
    requires { (x ≡ index_of index.now) × (i < 2147483648) }
    ensures { result ≡ protein_entry index.now i }
{
    let table = x.sequence_table;
    let start = natural_at(index, table + 4 * i);
    let next = natural_at(index, table + 4 * (i + 1));
    let end = next.saturating_sub(1);
    Entry { start, end, next }
}

// The entries of a DNA sequence.
#[tactic(auto, using(crate::proofs::Answers::numbers_near))]
pub(crate) fn dna_entry(index: &[u8], x: Index, i: usize) -> Entry
    requires { (x ≡ index_of index.now) × (i < 2147483648) }
    ensures { result ≡ dna_entry index.now i }
{
    let table = x.sequence_table;
    let ambiguities = x.ambiguity_table;
    let start = natural_at(index, table + 4 * i);
    let end = natural_at(index, ambiguities + 4 * i);
    let next = natural_at(index, table + 4 * (i + 1));
    Entry { start, end, next }
}

// The places of a protein, 7 and 8.
fn check_protein_places(sequence: &[u8], e: Entry) -> Result<(), Refusal>
    ensures { result ≡ checked_by (protein_place_rules sequence.now e) }
{
    if e.start < 1 || e.end < e.start || sequence.len() <= e.end {
        return Err(Refusal::BadOffsets);
    }
    if sequence[e.start - 1] != 0 || sequence[e.end] != 0 {
        return Err(Refusal::BadSeparator);
    }
    Ok(())
}

// The places of a DNA sequence, 7.
fn check_dna_places(sequence: &[u8], e: Entry) -> Result<(), Refusal>
    ensures { result ≡ checked_by (dna_place_rules sequence.now e) }
{
    if e.end <= e.start || e.next < e.end || sequence.len() < e.next {
        return Err(Refusal::BadOffsets);
    }
    Ok(())
}

// Decodes a protein: 7, 8, 11, 13.
pub(crate) fn decode_protein(sequence: &[u8], e: Entry, out: &mut [u8]) -> Result<usize, Refusal>
    ensures value { result ≡ placed_protein_answer sequence.now e (length out.old) }
    ensures out_after { out.new ≡ written_by result (placed_protein_residues sequence.now e) out.old }
{
    check_protein_places(sequence, e)?;
    let bytes = &sequence[e.start..e.end];
    if !are_proteins(bytes) {
        return Err(Refusal::BadProteinByte);
    }
    if out.len() < bytes.len() {
        return Err(Refusal::NoRoom);
    }
    write_proteins(bytes, out);
    Ok(bytes.len())
}

// Decodes a DNA sequence whose start is not negative, its bases and then its corrections over them: 7, 12, 13.
pub(crate) fn decode_dna(sequence: &[u8], e: Entry, out: &mut [u8]) -> Result<usize, Refusal>
    requires { length sequence.now ≤ 2147483647 }
    ensures value { result ≡ placed_dna_answer sequence.now e (length out.old) }
    ensures out_after { out.new ≡ written_by result (placed_dna_residues sequence.now e) out.old }
{
    check_dna_places(sequence, e)?;
    let l = two_bit_length(sequence, e.start as u32, e.end as u32);
    let entries = check_table(sequence, e.end, e.next, l)?;
    if out.len() < l {
        return Err(Refusal::NoRoom);
    }
    write_bases(&sequence[e.start..], l, out);
    correct(sequence, entries, out);
    Ok(l)
}
