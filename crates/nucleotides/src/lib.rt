// Nucleic codes written as a nucleotide volume has them: two-bit bytes, and right behind them the ambiguity range. Everything is checked
// before anything is written.
#![tactic(auto)]

mod pieces;
mod table;
mod two_bit;
mod width;

ghost use Rattle.std.specs.Prelude.{◌≡◌, ◌+◌, ◌*◌, ◌≤◌, ◌<◌, length};
ghost use Rattle.laws.specs.Places.{largest_to};
ghost use Rattle.laws.specs.Writing.{written_at};
ghost use Rattle.nucleotides.specs.Pieces.{bytes_of, width_of, corrections_of};
ghost use Rattle.nucleotides.specs.Table.{word_size};
ghost use Rattle.nucleotides.specs.Scan.{code_at};
ghost use Rattle.nucleotides.specs.Write.{sequence_bytes, bytes_needed, write_answer, write_output, bases_answer};

use answers::{MOST_BYTES, Refusal};
use pieces::survey;
use table::{put_block, put_pieces, put_word};
use two_bit::{last_byte, write_bytes};
use width::Width;

// The sizes of both parts in bytes.
#[derive(Clone, Copy)]
pub struct Written {
    pub two_bit: usize,
    pub table: usize,
}

// How many pieces a scan met, and the first place behind them.
#[derive(Clone, Copy)]
pub struct Reached {
    pub next: usize,
    pub pieces: usize,
}

// The largest code, and how many pieces there are.
#[derive(Clone, Copy)]
pub struct Survey {
    pub largest: u8,
    pub pieces: usize,
}

// How many bytes of codes are packed together: where all codes are below 4, they stand for themselves.
const BLOCK_BYTES: usize = 64;

// The bytes of the word before n entries.
fn word_size(n: usize) -> usize
    ensures { result ≡ word_size n }
{
    if n == 0 {
        return 0;
    }
    4
}

// Writes both parts, a block of codes at a time: its two-bit bytes, and the entries of the pieces that begin in it.
fn write_sequence(codes: &[u8], width: Width, n: usize, out: &mut [u8])
    requires width_value { (bytes_of width ≡ width_of (length codes.now)) × (n ≡ length (corrections_of codes.now)) × (length codes.now ≤ 2147483647) }
    requires codes_bound { (bytes_needed codes.now ≤ 2147483647) × (bytes_needed codes.now ≤ length out.old) }
    requires codes_bound_2 { largest_to (code_at codes.now) (length codes.now) < 16 }
    ensures { out.new ≡ written_at 0 (sequence_bytes codes.now) out.old }
{
    let w = width.bytes();
    let whole = codes.len() / 4;
    let entries = whole + 1 + word_size(n);
    let mut next = 0;
    let mut done = 0;
    let mut m = 0;
    while m < whole {
        let end = (m + BLOCK_BYTES).min(whole);
        let part = &codes[4 * m..4 * end];
        let largest = residues::largest_code(part);
        write_bytes(part, largest, &mut out[m..end]);
        let reached = put_block(
            codes,
            largest,
            next,
            4 * end,
            width,
            out,
            entries + w * done,
        );
        next = reached.next;
        done += reached.pieces;
        m = end;
    }
    out[whole] = last_byte(codes);
    put_pieces(codes, next, codes.len(), width, out, entries + w * done);
    put_word(out, whole + 1, width, n);
}

// Writes the two-bit bytes of nucleic codes and their ambiguity range into the first bytes of the output. On a refusal the output is left as it was.
pub fn write_nucleotides(codes: &[u8], out: &mut [u8]) -> Result<Written, Refusal>
    ensures value { result ≡ write_answer codes.now (length out.old) }
    ensures out_after { out.new ≡ write_output codes.now out.old }
{
    if MOST_BYTES < codes.len() {
        return Err(Refusal::TooLarge);
    }
    let width = Width::of(codes.len());
    let found = survey(codes, width);
    if found.largest > 15 {
        return Err(Refusal::BadCode);
    }
    let two_bit = codes.len() / 4 + 1;
    let table = word_size(found.pieces) + width.bytes() * found.pieces;
    if MOST_BYTES < two_bit + table {
        return Err(Refusal::TooLarge);
    }
    if out.len() < two_bit + table {
        return Err(Refusal::NoRoom);
    }
    write_sequence(codes, width, found.pieces, out);
    Ok(Written { two_bit, table })
}

// How many bases a code stands for: 1 for A, C, G and T, 0 for '-'.
pub fn bases_of_code(code: u32) -> Result<u32, Refusal>
    ensures { result ≡ bases_answer code }
{
    if 15 < code {
        return Err(Refusal::BadCode);
    }
    Ok(u32::from(residues::ambiguity_value(code as u8)).count_ones())
}
