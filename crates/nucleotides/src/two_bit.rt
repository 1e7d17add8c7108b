// Two-bit bytes out of nucleic codes.
ghost use Rattle.std.specs.Prelude.{◌≡◌, [], ◌∷◌, ℕ, ◌*◌, ◌≤◌, ◌<◌, length};
ghost use Rattle.laws.specs.Digits.{value};
ghost use Rattle.laws.specs.Places.{list_to};
ghost use Rattle.nucleotides.specs.TwoBit.{placeholder, two_bit_byte, last_byte};
ghost use Rattle.nucleotides.specs.Scan.{code_at};

use std::array;

// The base that stands for a code in two bits. Bit 4, set above the value, is the fifth: where no lower bit is set, it picks A.
fn placeholder(code: u8) -> u8
    ensures value { result ≡ placeholder code }
    ensures small { result < 4 }
{
    let v = u32::from(residues::ambiguity_value(code));
    ((v + 16).trailing_zeros() % 4) as u8
}

// The byte of four bases, the first highest. The factor has a bit for each base, 2^30, 2^20, 2^10 and 1: bits 24 to 31 of the product are the
// byte. Written so, the loop over many bytes is compiled to vector code, three times as fast as one that adds the bases up.
fn packed(a: u8, b: u8, c: u8, d: u8) -> u8
    requires { (a < 4) × (b < 4) × (c < 4) × (d < 4) }
    ensures { result ≡ value 2 0 (a ∷ b ∷ c ∷ d ∷ []) }
{
    (fields::word(a, b, c, d) as u64 * 1074791425 / 16777216 % 256) as u8
}

// The same by sums, which cost less where the bases stand in registers.
fn joined(a: u8, b: u8, c: u8, d: u8) -> u8
    requires { (a < 4) × (b < 4) × (c < 4) × (d < 4) }
    ensures { result ≡ value 2 0 (a ∷ b ∷ c ∷ d ∷ []) }
{
    ((a * 4 + b) * 4 + c) * 4 + d
}

// Writes whole bytes of codes that are all below 4.
fn write_plain(codes: &[u8], out: &mut [u8])
    requires four_to_a_byte { length codes.now ≡ 4 * length out.old }
    requires by_index { (k : ℕ) → k < length codes.now → code_at codes.now k < 4 }
    ensures { out.new ≡ list_to (two_bit_byte codes.now) (length out.old) }
{
    for j in 0..out.len() {
        let k = 4 * j;
        out[j] = packed(codes[k], codes[k + 1], codes[k + 2], codes[k + 3]);
    }
}

// The bases of all codes, each by its trailing zeros.
fn placeholders() -> [u8; 16]
    ensures { result ≡ list_to placeholder 16 }
{
    array::from_fn(|i| placeholder(i as u8))
}

// Writes whole bytes of any codes. The bases are made before the first byte, so that each code costs a load.
fn write_mixed(codes: &[u8], out: &mut [u8])
    requires four_to_a_byte { length codes.now ≡ 4 * length out.old }
    requires by_index { (k : ℕ) → k < length codes.now → code_at codes.now k < 16 }
    ensures { out.new ≡ list_to (two_bit_byte codes.now) (length out.old) }
{
    let bases = placeholders();
    for j in 0..out.len() {
        let k = 4 * j;
        let a = bases[codes[k] as usize];
        let b = bases[codes[k + 1] as usize];
        let c = bases[codes[k + 2] as usize];
        let d = bases[codes[k + 3] as usize];
        out[j] = joined(a, b, c, d);
    }
}

// Writes whole bytes of codes of which none is above the largest.
pub(crate) fn write_bytes(codes: &[u8], largest: u8, out: &mut [u8])
    requires four_to_a_byte { length codes.now ≡ 4 * length out.old }
    requires largest_bound { (largest < 16) × ((k : ℕ) → k < length codes.now → code_at codes.now k ≤ largest) }
    ensures { out.new ≡ list_to (two_bit_byte codes.now) (length out.old) }
{
    if largest < 4 {
        write_plain(codes, out);
    } else {
        write_mixed(codes, out);
    }
}

// The base at a place; behind the last code no bit is set.
fn base_at(codes: &[u8], k: usize) -> u8
    ensures value { result ≡ placeholder (code_at codes.now k) }
    ensures small { result < 4 }
{
    placeholder(fields::byte(codes, k))
}

// The last byte: the codes that fill no whole one, and how many they are.
pub(crate) fn last_byte(codes: &[u8]) -> u8
    requires { length codes.now ≤ 2147483647 }
    ensures { result ≡ last_byte codes.now }
{
    let k = 4 * (codes.len() / 4);
    let a = base_at(codes, k);
    let b = base_at(codes, k + 1);
    let c = base_at(codes, k + 2);
    joined(a, b, c, 0) + (codes.len() % 4) as u8
}
