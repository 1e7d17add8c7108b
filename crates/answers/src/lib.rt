// Document 01's answer numbers, and the answer of a check that returns no values.
#![tactic(auto)]

ghost use Rattle.std.specs.Prelude.{◌≡◌};
ghost use Rattle.answers.specs.Numbers.{number_of, checked_number};

// Why a call refuses: one case for each row of document 01's table of answer numbers.
#[derive(Clone, Copy, Debug, PartialEq, Eq)]
pub enum Refusal {
    TooShort,
    WrongVersion,
    WrongKind,
    OutOfRange,
    Misaligned,
    Leftover,
    BadOffsets,
    BadSeparator,
    WrongTotals,
    NoSuchSequence,
    BadProteinByte,
    BadAmbiguity,
    NoRoom,
    WrongMagic,
    TagsDiffer,
    BadRun,
    BadCode,
    BadMetadata,
    BadHeader,
    TooDeep,
    TooLarge,
}

// The most bytes of an input byte range, and the most packets of an input packet range: more is TooLarge.
pub const MOST_BYTES: usize = 2147483647;

pub const MOST_PACKETS: usize = 536870912;

// The number of a refusal in document 01.
impl From<Refusal> for u32 {
    ghost from_gives = { λ r n. n ≡ number_of r };

    fn from(r: Refusal) -> u32 {
        match r {
            Refusal::TooShort => 1,
            Refusal::WrongVersion => 2,
            Refusal::WrongKind => 3,
            Refusal::OutOfRange => 4,
            Refusal::Misaligned => 5,
            Refusal::Leftover => 6,
            Refusal::BadOffsets => 7,
            Refusal::BadSeparator => 8,
            Refusal::WrongTotals => 9,
            Refusal::NoSuchSequence => 10,
            Refusal::BadProteinByte => 11,
            Refusal::BadAmbiguity => 12,
            Refusal::NoRoom => 13,
            Refusal::WrongMagic => 14,
            Refusal::TagsDiffer => 15,
            Refusal::BadRun => 17,
            Refusal::BadCode => 18,
            Refusal::BadMetadata => 19,
            Refusal::BadHeader => 20,
            Refusal::TooDeep => 21,
            Refusal::TooLarge => 22,
        }
    }
}

// The answer number of a check that returns no values: 0 where it passed.
pub fn checked_number(c: Result<(), Refusal>) -> u32
    ensures { result ≡ checked_number c }
{
    match c {
        Ok(()) => 0,
        Err(r) => u32::from(r),
    }
}
