// Residues out of bytes: two-bit residues, four to a byte, and protein residues, one to a byte.
ghost use Rattle.std.specs.Prelude.{◌≡◌, ℕ, ◌+◌, ◌*◌, ◌-◌, ◌/◌, ◌≤◌, ◌<◌, length};
ghost use Rattle.laws.specs.Places.{every};
ghost use Rattle.laws.specs.Writing.{written_at};
ghost use Rattle.sequence.specs.Bases.{bases_of, two_bit_residues};
ghost use Rattle.residues.specs.Tables.{protein_code};
ghost use Rattle.sequence.specs.Mended.{where_is, AreProteins, residues_from};
ghost use Rattle.sequence.specs.Sequence.{most_protein_byte, is_protein_byte, protein_residues};

use super::table::write_by_table;
use residues::largest_code;

// The four bases of a byte, two of each half. The product holds the half byte twice, from bit 0 and from bit 10 on: written so, the
// loop over many bytes is compiled to vector code, three times as fast as one that shifts each base out of the byte.
fn bases(byte: u8) -> [u8; 4]
    ensures { result ≡ bases_of byte }
{
    let high = u16::from(byte / 16) * 1025;
    let low = u16::from(byte % 16) * 1025;
    [
        (high / 4 % 4) as u8,
        (high / 1024 % 4) as u8,
        (low / 4 % 4) as u8,
        (low / 1024 % 4) as u8,
    ]
}

// The least number of whole bytes whose bases are taken from the table. It is laid out on the stack to be lent, once for each sequence, for
// which short ones have no time; and up to this length, whose residues lie in a processor's nearest caches, products are twice as fast.
const LONG: usize = 32768;

// Writes the bases of whole bytes, each byte's by products.
fn write_by_products(bytes: &[u8], out: &mut [u8])
    requires { 4 * length bytes.now ≤ length out.old }
    ensures { out.new ≡ written_at 0 (two_bit_residues bytes.now 0 (4 * length bytes.now)) out.old }
{
    for (m, &byte) in bytes.iter().enumerate() {
        let four = bases(byte);
        out[4 * m] = four[0];
        out[4 * m + 1] = four[1];
        out[4 * m + 2] = four[2];
        out[4 * m + 3] = four[3];
    }
}

// Writes the bases of whole bytes.
fn write_whole(bytes: &[u8], out: &mut [u8])
    requires { 4 * length bytes.now ≤ length out.old }
    ensures { out.new ≡ written_at 0 (two_bit_residues bytes.now 0 (4 * length bytes.now)) out.old }
{
    if bytes.len() < LONG {
        write_by_products(bytes, out);
    } else {
        write_by_table(bytes, out);
    }
}

// Writes the first l residues of two-bit bytes.
pub(crate) fn write_bases(bytes: &[u8], l: usize, out: &mut [u8])
    requires { (l / 4 < length bytes.now) × (l ≤ length out.old) }
    ensures { out.new ≡ written_at 0 (two_bit_residues bytes.now 0 l) out.old }
{
    let whole = l / 4;
    write_whole(&bytes[..whole], out);
    let four = bases(bytes[whole]);
    for k in 4 * whole..l {
        out[k] = four[k - 4 * whole];
    }
}

// Whether each of some bytes is a protein value.
pub(crate) fn are_proteins(bytes: &[u8]) -> bool
    ensures { result ≡ every (is_protein_byte bytes.now 0) (length bytes.now) }
{
    largest_code(bytes) <= 27
}

// A number where a byte is a given one, else 0.
fn where_is(byte: u8, given: u8, number: u8) -> u8
    ensures value { result ≡ where_is byte given number }
    ensures small { result ≤ number }
{
    if byte == given { number } else { 0 }
}

// The code of a protein byte. Most codes are the byte less 2, and the others are mended one by one: without a table and without a branch,
// sixteen bytes are translated at once.
fn protein_code(byte: u8) -> u8
    requires { byte ≤ most_protein_byte }
    ensures { result ≡ protein_code byte }
{
    let raised = byte.saturating_sub(2)
        + byte.saturating_sub(21)
        + where_is(byte, 0, 20)
        + where_is(byte, 2, 21)
        + where_is(byte, 21, 7);
    let lowered = where_is(byte, 22, 2) + where_is(byte, 26, 5) + where_is(byte, 27, 9);
    raised.saturating_sub(lowered)
}

// The codes of sixteen protein bytes.
fn sixteen_codes(block: &[u8]) -> [u8; 16]
    requires { (length block.now ≡ 16) × AreProteins block.now }
    ensures { result ≡ protein_residues block.now 0 16 }
{
    let mut codes = [0u8; 16];
    for i in 0..16 {
        codes[i] = protein_code(block[i]);
    }
    codes
}

// Writes the codes of sixteen of the protein bytes, from the k-th on, at their place of the output. All are made before the first is
// stored, so that the compiler makes them together.
fn put_sixteen(bytes: &[u8], k: usize, out: &mut [u8])
    requires { (k + 16 ≤ length bytes.now) × AreProteins bytes.now × (k + 16 ≤ length out.old) }
    ensures { out.new ≡ written_at k (residues_from bytes.now 0 k 16) out.old }
{
    let codes = sixteen_codes(&bytes[k..k + 16]);
    out[k..k + 16].copy_from_slice(&codes);
}

// Writes the residues of protein bytes, one by one.
fn write_few(bytes: &[u8], out: &mut [u8])
    requires { AreProteins bytes.now × (length bytes.now ≤ length out.old) }
    ensures { out.new ≡ written_at 0 (protein_residues bytes.now 0 (length bytes.now)) out.old }
{
    for (k, &byte) in bytes.iter().enumerate() {
        out[k] = protein_code(byte);
    }
}

// Writes the residues of protein bytes, sixteen at once; the last sixteen are whole too, and write some once more.
pub(crate) fn write_proteins(bytes: &[u8], out: &mut [u8])
    requires { AreProteins bytes.now × (length bytes.now ≤ length out.old) }
    ensures { out.new ≡ written_at 0 (protein_residues bytes.now 0 (length bytes.now)) out.old }
{
    let l = bytes.len();
    if l < 16 {
        write_few(bytes, out);
        return;
    }
    for block in 0..l / 16 {
        put_sixteen(bytes, 16 * block, out);
    }
    put_sixteen(bytes, l - 16, out);
}
