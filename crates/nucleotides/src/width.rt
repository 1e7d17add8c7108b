// How wide the entries of an ambiguity range are.
ghost use Rattle.std.specs.Prelude.{◌≡◌, ◌<◌};
ghost use Rattle.nucleotides.specs.Pieces.{bytes_of, width_of, limit_of};

// Four bytes, or eight.
#[derive(Clone, Copy)]
pub(crate) enum Width {
    Narrow,
    Wide,
}

// The most codes whose entries have four bytes.
const MOST_NARROW: usize = 16777216;

impl Width {
    // The width of the entries for so many codes.
    pub(crate) fn of(l: usize) -> Width
        ensures { bytes_of result ≡ width_of l }
    {
        if MOST_NARROW < l {
            return Width::Wide;
        }
        Width::Narrow
    }

    // The bytes of an entry.
    pub(crate) fn bytes(self) -> usize
        ensures { result ≡ bytes_of self }
    {
        match self {
            Width::Narrow => 4,
            Width::Wide => 8,
        }
    }

    // The most residues that an entry corrects.
    pub(crate) fn most_repeat(self) -> usize
        ensures value { result ≡ limit_of self }
        ensures some { 0 < result }
    {
        match self {
            Width::Narrow => 16,
            Width::Wide => 4096,
        }
    }
}
