// Easel's alphabets and residue codes, the codes of a volume's ambiguity values, and the values of nucleic codes.
#![tactic(auto)]

ghost use Rattle.std.specs.Prelude.{◌≡◌, ◌<◌, max, length, get_or};
ghost use Rattle.laws.specs.Places.{largest_to};
ghost use Rattle.residues.specs.Alphabets.{is_alphabet, is_amino, code_limit};
ghost use Rattle.residues.specs.Tables.{ambiguity_code, ambiguity_value};

const AMBIGUITY_CODES: [u8; 16] = [4, 0, 1, 7, 2, 5, 9, 13, 3, 10, 6, 11, 8, 14, 12, 15];

// The ambiguity values of the codes, four bits each, that of code 0 lowest: a shift takes one out, where a table would be laid out anew for each.
const AMBIGUITY_VALUES: u64 = 0xfd7e_b96c_3a50_8421;

// Whether a number is an alphabet: 1 or 2, nucleic, or 3, amino.
pub fn is_alphabet(alphabet: u32) -> bool
    ensures { result ≡ is_alphabet alphabet }
{
    (1..=3).contains(&alphabet)
}

// Whether an alphabet is the amino one.
pub fn is_amino(alphabet: u32) -> bool
    ensures { result ≡ is_amino alphabet }
{
    alphabet == 3
}

// The number of valid codes of an alphabet.
pub fn code_limit(alphabet: u32) -> u8
    ensures { result ≡ code_limit alphabet }
{
    if is_amino(alphabet) { 28 } else { 16 }
}

// The largest of some codes; 0 where there is none.
pub fn largest_code(codes: &[u8]) -> u8
    ensures { result ≡ largest_to (λ k. get_or codes.now k 0) (length codes.now) }
{
    let mut most = 0;
    for &code in codes {
        most = most.max(code);
    }
    most
}

// The code of an ambiguity value; 0 for a number above 15.
pub fn ambiguity_code(v: u8) -> u8
    ensures { result ≡ ambiguity_code v }
{
    AMBIGUITY_CODES.get(usize::from(v)).copied().unwrap_or(0)
}

// The ambiguity value of a nucleic code; 0 for a number above 15.
pub fn ambiguity_value(code: u8) -> u8
    ensures { result ≡ ambiguity_value code }
{
    if code > 15 {
        return 0;
    }
    ((AMBIGUITY_VALUES >> (4 * code)) % 16) as u8
}
