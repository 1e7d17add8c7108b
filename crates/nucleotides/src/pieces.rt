// The pieces of stretches of one code of 4 or more, counted.
ghost use Rattle.std.specs.Prelude.{◌≡◌, ℕ, ◌+◌, ◌-◌, ◌≤◌, ◌<◌, length, drop};
ghost use Rattle.laws.specs.Places.{largest_to, sum_to};
ghost use Rattle.nucleotides.specs.Pieces.{limit_of, piece_length, pieces_from};
ghost use Rattle.nucleotides.specs.Scan.{code_at, Met, ambiguous, begun, Stretch};

use super::width::Width;
use super::{Reached, Survey};

// How many codes are looked at together: where all are below 4, no piece begins there. The starts among those behind the first, 7 times 32, are
// counted in vectors of bytes.
const BLOCK: usize = 225;

// The length of the piece that begins at a place.
pub(crate) fn piece_length(codes: &[u8], at: usize, width: Width) -> usize
    requires { (at < length codes.now) }
    ensures value { result ≡ piece_length (limit_of width) (code_at codes.now at) (drop (at + 1) codes.now) }
    ensures bounds { (0 < result) × (at + result ≤ length codes.now) × (result ≤ limit_of width) }
{
    let code = codes[at];
    let limit = width.most_repeat();
    for n in 1..limit {
        if codes.len() <= at + n || codes[at + n] != code {
            return n;
        }
    }
    limit
}

// Counts the pieces that begin from a place on and before an end.
fn count_pieces(codes: &[u8], from: usize, end: usize, width: Width) -> Reached
    requires { (from ≤ length codes.now) × (end ≤ length codes.now) }
    ensures met { Met (limit_of width) codes.now from result.pieces result.next }
    ensures reached { end ≤ result.next }
{
    let mut k = from;
    let mut n: usize = 0;
    while k < end {
        if codes[k] < 4 {
            k += 1;
            continue;
        }
        k += piece_length(codes, k, width);
        n += 1;
    }
    Reached { next: k, pieces: n }
}

// The same, where all codes from the place on and before the end are one code of 4 or more.
fn cut_stretch(codes: &[u8], from: usize, end: usize, width: Width) -> Reached
    requires from_le_end { (from ≤ end) × (end ≤ length codes.now) }
    requires by_index { (k : ℕ) → from ≤ k → k < end → (code_at codes.now k ≡ code_at codes.now from) × (4 ≤ code_at codes.now k) }
    ensures met { Met (limit_of width) codes.now from result.pieces result.next }
    ensures reached { end ≤ result.next }
{
    let limit = width.most_repeat();
    let n = (end - from) / limit;
    let rest = count_pieces(codes, from + n * limit, end, width);
    Reached {
        next: rest.next,
        pieces: n + rest.pieces,
    }
}

// 1 at a code of 4 or more, else 0.
fn is_ambiguous(code: u8) -> u8
    ensures { result ≡ ambiguous code }
{
    u8::from(4 <= code)
}

// 1 at a code of 4 or more that differs from the one before, else 0.
fn is_begun(previous: u8, code: u8) -> u8
    ensures { result ≡ begun previous code }
{
    if previous == code {
        return 0;
    }
    is_ambiguous(code)
}

// How many codes are 4 or more.
fn ambiguous_in(codes: &[u8]) -> u8
    requires { length codes.now < 256 }
    ensures { result ≡ sum_to (λ i. ambiguous (code_at codes.now i)) (length codes.now) }
{
    let mut count = 0;
    for &code in codes {
        count += is_ambiguous(code);
    }
    count
}

// How many codes behind the first are 4 or more and differ from the one before.
fn begun_in(codes: &[u8]) -> u8
    requires { (0 < length codes.now) × (length codes.now ≤ 256) }
    ensures { result ≡ sum_to (λ i. begun (code_at codes.now i) (code_at codes.now (i + 1))) (length codes.now - 1) }
{
    // The codes behind the first are a slice of their own: each turn reads both codes. Where it took one over from the turn before, a short rest would
    // be compiled to no vectors.
    let behind = &codes[1..];
    let mut count = 0;
    for i in 0..behind.len() {
        count += is_begun(codes[i], behind[i]);
    }
    count
}

// Where the stretch of a place begins, from another place on.
fn stretch_start(codes: &[u8], from: usize, at: usize) -> usize
    requires { (from ≤ at) × (at < length codes.now) }
    ensures { Stretch codes.now from result at }
{
    let code = codes[at];
    for s in (from + 1..at + 1).rev() {
        if codes[s - 1] != code {
            return s;
        }
    }
    from
}

// Where a scan goes on that met all that begins before or at a place, if the stretch of this place reaches the limit behind the place only.
fn behind(codes: &[u8], from: usize, at: usize, width: Width) -> usize
    requires { (from ≤ at) × (at < length codes.now) }
    ensures { (s m : ℕ) → Stretch codes.now from s at → Met (limit_of width) codes.now from m s
        → (4 ≤ code_at codes.now at → at < s + limit_of width)
        → Met (limit_of width) codes.now from (m + ambiguous (code_at codes.now at)) result × (at < result) }
{
    if codes[at] < 4 {
        return at + 1;
    }
    let s = stretch_start(codes, from, at);
    s + piece_length(codes, s, width)
}

// Counts the pieces that begin from a place on and before an end, where no code of a block is above the largest. Where stretches are short, each is one
// piece: one begins at the first place if its code is 4 or more, and the others where a code of 4 or more differs from the one before.
fn count_block(codes: &[u8], largest: u8, from: usize, end: usize, width: Width) -> Reached
    requires from_in_bounds { (from ≤ length codes.now) × (end ≤ length codes.now) × (end ≤ from + 256) }
    requires by_index { (k : ℕ) → from ≤ k → k < end → code_at codes.now k ≤ largest }
    ensures met { Met (limit_of width) codes.now from result.pieces result.next }
    ensures reached { end ≤ result.next }
{
    if largest < 4 {
        return Reached {
            next: from.max(end),
            pieces: 0,
        };
    }
    if end <= from {
        return Reached {
            next: from,
            pieces: 0,
        };
    }
    let n = end - from - 1;
    let begun = begun_in(&codes[from..end]);
    let ambiguous = ambiguous_in(&codes[from + 1..end]);
    // so many codes of 4 or more are the ones before them: where they are below the limit, each stretch is one piece
    let kept = usize::from(ambiguous - begun);
    if width.most_repeat() <= kept {
        if kept == n {
            return cut_stretch(codes, from, end, width);
        }
        return count_pieces(codes, from, end, width);
    }
    let first = is_ambiguous(codes[from]);
    Reached {
        next: behind(codes, from, from + n, width),
        pieces: usize::from(first) + usize::from(begun),
    }
}

// Reads the codes once: the largest, and how many pieces there are.
pub(crate) fn survey(codes: &[u8], width: Width) -> Survey
    ensures largest { result.largest ≡ largest_to (code_at codes.now) (length codes.now) }
    ensures pieces { result.pieces ≡ length (pieces_from (limit_of width) codes.now 0) }
{
    let mut top: u8 = 0;
    let mut next = 0;
    let mut pieces = 0;
    let mut start = 0;
    while start < codes.len() {
        let end = (start + BLOCK).min(codes.len());
        let largest = residues::largest_code(&codes[start..end]);
        let reached = count_block(codes, largest, next, end, width);
        top = top.max(largest);
        next = reached.next;
        pieces += reached.pieces;
        start = end;
    }
    Survey {
        largest: top,
        pieces,
    }
}
