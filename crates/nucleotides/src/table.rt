// The ambiguity range: its word, and an entry for each piece.
ghost use Rattle.std.specs.Prelude.{◌≡◌, ℕ, ◌+◌, ◌*◌, ◌^◌, ◌≤◌, ◌<◌, length, take};
ghost use Rattle.fields.specs.Number.{big};
ghost use Rattle.fields.specs.Written.{number_bytes};
ghost use Rattle.laws.specs.Writing.{written_at};
ghost use Rattle.nucleotides.specs.Pieces.{piece, bytes_of, limit_of, pieces_from};
ghost use Rattle.nucleotides.specs.Table.{entry_of, entry_bytes, table_word, word_bytes};
ghost use Rattle.nucleotides.specs.Scan.{code_at, Met};

use super::Reached;
use super::pieces::piece_length;
use super::width::Width;
use fields::{Order, Unsigned};

// The entry for a piece.
fn entry_of(width: Width, code: u8, start: usize, length: usize) -> u64
    requires { (start < 2 ^ (6 * bytes_of width)) × (0 < length) × (length ≤ limit_of width) }
    ensures value { result ≡ entry_of (bytes_of width) (piece code start length) }
    ensures small { result < 2 ^ (8 * bytes_of width) }
{
    let w = width.bytes();
    let value = u64::from(residues::ambiguity_value(code));
    (value << (8 * w - 4)) + (((length - 1) as u64) << (6 * w)) + start as u64
}

// Writes an entry at a place.
fn put_entry(out: &mut [u8], at: usize, width: Width, entry: u64)
    requires { (at + bytes_of width ≤ length out.old) × (entry < 2 ^ (8 * bytes_of width)) }
    ensures { out.new ≡ written_at at (number_bytes big (bytes_of width) entry) out.old }
{
    match width {
        Width::Narrow => (entry as u32).put(Order::Big, out, at),
        Width::Wide => entry.put(Order::Big, out, at),
    }
}

// Writes the entries of the pieces that begin from a place on and before an end.
pub(crate) fn put_pieces(
    codes: &[u8],
    from: usize,
    end: usize,
    width: Width,
    out: &mut [u8],
    at: usize,
) -> Reached
    requires from_in_bounds { (from ≤ length codes.now) × (end ≤ length codes.now) }
    requires places { length codes.now ≤ 2 ^ (6 * bytes_of width) }
    requires room { at + bytes_of width * length (pieces_from (limit_of width) codes.now from) ≤ length out.old }
    ensures met { Met (limit_of width) codes.now from result.pieces result.next }
    ensures reached { end ≤ result.next }
    ensures out_after { out.new ≡ written_at at (entry_bytes (bytes_of width) (take result.pieces (pieces_from (limit_of width) codes.now from))) out.old }
{
    let w = width.bytes();
    let mut k = from;
    let mut n: usize = 0;
    while k < end {
        if codes[k] < 4 {
            k += 1;
            continue;
        }
        let length = piece_length(codes, k, width);
        put_entry(out, at + w * n, width, entry_of(width, codes[k], k, length));
        k += length;
        n += 1;
    }
    Reached { next: k, pieces: n }
}

// The same, for codes of which none is above the largest.
pub(crate) fn put_block(
    codes: &[u8],
    largest: u8,
    from: usize,
    end: usize,
    width: Width,
    out: &mut [u8],
    at: usize,
) -> Reached
    requires from_in_bounds { (from ≤ length codes.now) × (end ≤ length codes.now) }
    requires places { length codes.now ≤ 2 ^ (6 * bytes_of width) }
    requires room { at + bytes_of width * length (pieces_from (limit_of width) codes.now from) ≤ length out.old }
    requires by_index { (k : ℕ) → from ≤ k → k < end → code_at codes.now k ≤ largest }
    ensures met { Met (limit_of width) codes.now from result.pieces result.next }
    ensures reached { end ≤ result.next }
    ensures out_after { out.new ≡ written_at at (entry_bytes (bytes_of width) (take result.pieces (pieces_from (limit_of width) codes.now from))) out.old }
{
    if largest < 4 {
        return Reached {
            next: from.max(end),
            pieces: 0,
        };
    }
    put_pieces(codes, from, end, width, out, at)
}

// The word before n entries.
fn table_word(width: Width, n: usize) -> u32
    requires { bytes_of width * n ≤ 2147483647 }
    ensures { result ≡ table_word (bytes_of width) n }
{
    match width {
        Width::Narrow => n as u32,
        Width::Wide => 2147483648 + 2 * (n as u32),
    }
}

// Writes the word at a place, where there are entries.
pub(crate) fn put_word(out: &mut [u8], at: usize, width: Width, n: usize)
    requires { (bytes_of width * n ≤ 2147483647) × (at + length (word_bytes (bytes_of width) n) ≤ length out.old) }
    ensures { out.new ≡ written_at at (word_bytes (bytes_of width) n) out.old }
{
    if n == 0 {
        return;
    }
    table_word(width, n).put(Order::Big, out, at);
}
