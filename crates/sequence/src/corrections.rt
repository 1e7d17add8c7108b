// The ambiguity range of a DNA sequence: its entries, their rules, and the corrections written over an output.
ghost use Rattle.std.specs.Prelude.{◌≡◌, ℕ, ◌+◌, ◌*◌, ◌^◌, ◌≤◌, ◌<◌, length};
ghost use Rattle.laws.specs.Places.{every, list_to};
ghost use Rattle.laws.specs.Writing.{written_at};
ghost use Rattle.fields.specs.Number.{big, unsigned_at};
ghost use Rattle.sequence.specs.Corrections.{correction_at, correction_end, entry_fits, corrections_at, corrected};
ghost use Rattle.sequence.specs.Tabled.{entries_of, width_bytes, LieInside, range_answer};

use super::{Correction, RangeEntries, Width};
use answers::Refusal;
use fields::{Order, read};

impl Width {
    // The bytes of an entry.
    fn bytes(self) -> usize
        ensures { result ≡ width_bytes self }
    {
        match self {
            Width::Narrow => 4,
            Width::Wide => 8,
        }
    }
}

// The entries of the range from a place up to an end; none unless it is empty, or a word and as many words as it says. An empty range
// is not read: most are.
fn entries_of(sequence: &[u8], place: usize, end: usize) -> Option<RangeEntries>
    requires { (place ≤ end) × (end ≤ 2147483647) }
    ensures { result ≡ entries_of sequence.now place end }
{
    let start = place + 4;
    if place == end {
        return Some(RangeEntries {
            start,
            width: Width::Narrow,
            count: 0,
        });
    }
    let word = read::<u32>(Order::Big, sequence, place);
    let words = (word % 2147483648) as usize;
    let width = if word < 2147483648 {
        Width::Narrow
    } else {
        Width::Wide
    };
    let w = width.bytes();
    let count = 4 * words / w;
    if start + 4 * words == end && w * count == 4 * words {
        Some(RangeEntries {
            start,
            width,
            count,
        })
    } else {
        None
    }
}

// The entry of a width at a place, where it lies inside the file: read from its own bytes, it is one load.
fn entry_at(sequence: &[u8], at: usize, width: Width) -> u64
    requires { at + width_bytes width ≤ length sequence.now }
    ensures value { result ≡ unsigned_at big (width_bytes width) sequence.now at }
    ensures small { result < 2 ^ (8 * width_bytes width) }
{
    match width {
        Width::Narrow => u64::from(read::<u32>(Order::Big, &sequence[at..at + 4], 0)),
        Width::Wide => read::<u64>(Order::Big, &sequence[at..at + 8], 0),
    }
}

// The correction that entry j states.
fn correction_at(sequence: &[u8], entries: RangeEntries, j: usize) -> Correction
    requires { LieInside sequence.now entries × (j < entries.count) }
    ensures value { result ≡ correction_at sequence.now entries.start (width_bytes entries.width) j }
    ensures small { (result.value < 16) × (result.start < 281474976710656) × (result.length ≤ 4096) }
{
    let w = entries.width.bytes();
    let entry = entry_at(sequence, entries.start + w * j, entries.width);
    Correction {
        value: (entry >> (8 * w - 4)) as u8,
        start: (entry % (1 << (6 * w))) as usize,
        length: ((entry >> (6 * w)) % (1 << (2 * w - 4))) as usize + 1,
    }
}

// Whether each entry starts at or after the end of the one before and ends within l.
fn entries_fit(sequence: &[u8], entries: RangeEntries, l: usize) -> bool
    requires { LieInside sequence.now entries }
    ensures { result ≡ every (entry_fits sequence.now entries.start (width_bytes entries.width) l) entries.count }
{
    let mut low: usize = 0;
    for j in 0..entries.count {
        let c = correction_at(sequence, entries, j);
        let end = c.start + c.length;
        if c.start < low || l < end {
            return false;
        }
        low = end;
    }
    true
}

// The entries of the range from a place up to an end, for a sequence of length l, by the rules of such a range, 12.
pub(crate) fn check_table(
    sequence: &[u8],
    place: usize,
    end: usize,
    l: usize,
) -> Result<RangeEntries, Refusal>
    requires { (place ≤ end) × (end ≤ length sequence.now) × (length sequence.now ≤ 2147483647) }
    ensures { result ≡ range_answer sequence.now place end l }
{
    let Some(entries) = entries_of(sequence, place, end) else {
        return Err(Refusal::BadAmbiguity);
    };
    if !entries_fit(sequence, entries, l) {
        return Err(Refusal::BadAmbiguity);
    }
    Ok(entries)
}

// Writes one code at n places from a start on. Eight to sixteen are two stores of eight, which may meet: most corrections are short.
fn paint(out: &mut [u8], start: usize, n: usize, code: u8)
    requires { start + n ≤ length out.old }
    ensures { out.new ≡ written_at start (list_to (λ _. code) n) out.old }
{
    let end = start + n;
    if n < 8 || n > 16 {
        out[start..end].fill(code);
        return;
    }
    out[start..start + 8].fill(code);
    out[end - 8..end].fill(code);
}

// Writes the corrections that entries state over an output.
pub(crate) fn correct(sequence: &[u8], entries: RangeEntries, out: &mut [u8])
    requires lie { LieInside sequence.now entries }
    requires end_within { (j : ℕ) → j < entries.count → correction_end (correction_at sequence.now entries.start (width_bytes entries.width) j) ≤ length out.old }
    ensures { out.new ≡ corrected (corrections_at sequence.now entries.start (width_bytes entries.width) entries.count) out.old }
{
    for j in 0..entries.count {
        let c = correction_at(sequence, entries, j);
        paint(out, c.start, c.length, residues::ambiguity_code(c.value));
    }
}
