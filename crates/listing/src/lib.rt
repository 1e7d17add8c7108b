// The listing of a volume: document 01's text, written into a lent array that has room for every listing.
#![tactic(auto)]

ghost use Rattle.std.specs.Prelude.{◌≡◌, [], ◌∷◌, ◌+◌, ◌≤◌, ◌<◌, length};
ghost use Rattle.laws.specs.Writing.{written_at};
ghost use Rattle.volume.specs.Tables.{length_of_number};
ghost use Rattle.listing.specs.Listing.{digit_of, decimal, number_then, type_text, head_text, length_text};
ghost use Rattle.listing.specs.Listing.{lengths_text, refused_text, listed_answer, volume_text, listing_text, Put};

use answers::Refusal;
use volume::VolumeRecord;

// The most bytes of a file that is listed.
pub const MOST_LISTED: usize = 16384;

// The room of a listing: every text fits in it.
pub const LISTING_ROOM: usize = 131072;

// The digit of a number below ten.
fn digit(n: usize) -> u8
    requires { n < 10 }
    ensures { result ≡ digit_of n }
{
    b'0' + n as u8
}

// A text in a lent array, and the place behind what is put so far.
#[derive(Drop)]
struct Text<'a> {
    out: &'a mut [u8],
    at: usize,
}

impl Text<'_> {
    // Puts a byte.
    fn byte(&mut self, b: u8)
        requires { self.old.at + length (b ∷ []) ≤ length self.old.out.now }
        ensures same_reference { self.new.out.ghost_name ≡ self.old.out.ghost_name }
        ensures put { Put self.old.out.now self.old.at (b ∷ []) self.new.out.now self.new.at }
    {
        self.out[self.at] = b;
        self.at += 1;
    }

    // Puts a word.
    fn word(&mut self, word: &[u8])
        requires { self.old.at + length word.now ≤ length self.old.out.now }
        ensures same_reference { self.new.out.ghost_name ≡ self.old.out.ghost_name }
        ensures put { Put self.old.out.now self.old.at word.now self.new.out.now self.new.at }
    {
        let end = self.at + word.len();
        self.out[self.at..end].copy_from_slice(word);
        self.at = end;
    }

    // Puts a number in base ten: its last digit behind those of a tenth of it.
    fn decimal(&mut self, n: usize)
        requires { self.old.at + length (decimal n) ≤ length self.old.out.now }
        ensures same_reference { self.new.out.ghost_name ≡ self.old.out.ghost_name }
        ensures put { Put self.old.out.now self.old.at (decimal n) self.new.out.now self.new.at }
    {
        if n < 10 {
            self.byte(digit(n));
        } else {
            self.decimal(n / 10);
            self.byte(digit(n % 10));
        }
    }

    // Puts a number and the byte after it.
    #[tactic(auto, using(crate::proofs::Texts::put_then, crate::proofs::Texts::append_length), unfolding(crate::specs::Listing::number_then))]
    fn number(&mut self, n: usize, after: u8)
        requires { self.old.at + length (number_then n after) ≤ length self.old.out.now }
        ensures same_reference { self.new.out.ghost_name ≡ self.old.out.ghost_name }
        ensures put { Put self.old.out.now self.old.at (number_then n after) self.new.out.now self.new.at }
    {
        self.decimal(n);
        self.byte(after);
    }

    // Puts the type by its name.
    #[tactic(auto, unfolding(crate::specs::Listing::type_text))]
    fn kind(&mut self, kind: usize)
        requires { self.old.at + length (type_text kind) ≤ length self.old.out.now }
        ensures same_reference { self.new.out.ghost_name ≡ self.old.out.ghost_name }
        ensures put { Put self.old.out.now self.old.at (type_text kind) self.new.out.now self.new.at }
    {
        if kind == 1 {
            self.word(b"protein ");
        } else {
            self.word(b"dna ");
        }
    }

    // Puts the first line.
    #[tactic(auto, using(crate::proofs::Texts::put_then, crate::proofs::Texts::append_length), unfolding(crate::specs::Listing::head_text))]
    fn head(&mut self, v: VolumeRecord)
        requires { self.old.at + length (head_text v) ≤ length self.old.out.now }
        ensures same_reference { self.new.out.ghost_name ≡ self.old.out.ghost_name }
        ensures put { Put self.old.out.now self.old.at (head_text v) self.new.out.now self.new.at }
    {
        self.kind(v.kind);
        self.number(v.sequences, b' ');
        self.number(v.residues, b' ');
        self.number(v.longest, b'\n');
    }

    // Puts the line of a sequence.
    #[tactic(auto, using(crate::proofs::Texts::put_then, crate::proofs::Texts::append_length), unfolding(crate::specs::Listing::length_text))]
    fn sequence(&mut self, number: usize, len: usize)
        requires { self.old.at + length (length_text number len) ≤ length self.old.out.now }
        ensures same_reference { self.new.out.ghost_name ≡ self.old.out.ghost_name }
        ensures put { Put self.old.out.now self.old.at (length_text number len) self.new.out.now self.new.at }
    {
        self.number(number, b' ');
        self.number(len, b'\n');
    }

    // Puts the lines of n sequences.
    fn sequences(&mut self, index: &[u8], sequence: &[u8], n: usize)
        requires { self.old.at + length (lengths_text (length_of_number index.now sequence.now) n) ≤ length self.old.out.now }
        ensures same_reference { self.new.out.ghost_name ≡ self.old.out.ghost_name }
        ensures put { Put self.old.out.now self.old.at (lengths_text (length_of_number index.now sequence.now) n) self.new.out.now self.new.at }
    {
        for i in 0..n {
            self.sequence(i, volume::sequence_length(index, sequence, i));
        }
    }

    // Puts the text of a volume that passed.
    #[tactic(auto, using(crate::proofs::Texts::put_then, crate::proofs::Texts::append_length), unfolding(crate::specs::Listing::volume_text))]
    fn volume(&mut self, index: &[u8], sequence: &[u8], v: VolumeRecord)
        requires { self.old.at + length (volume_text index.now sequence.now v) ≤ length self.old.out.now }
        ensures same_reference { self.new.out.ghost_name ≡ self.old.out.ghost_name }
        ensures put { Put self.old.out.now self.old.at (volume_text index.now sequence.now v) self.new.out.now self.new.at }
    {
        self.head(v);
        self.sequences(index, sequence, v.sequences);
    }

    // Puts the line of a refusal.
    #[tactic(auto, using(crate::proofs::Texts::put_then, crate::proofs::Texts::append_length), unfolding(crate::specs::Listing::refused_text))]
    fn refused(&mut self, number: usize)
        requires { self.old.at + length (refused_text number) ≤ length self.old.out.now }
        ensures same_reference { self.new.out.ghost_name ≡ self.old.out.ghost_name }
        ensures put { Put self.old.out.now self.old.at (refused_text number) self.new.out.now self.new.at }
    {
        self.word(b"refused ");
        self.number(number, b'\n');
    }
}

// The check of a volume that is listed; larger files are 22.
#[tactic(auto, unfolding(crate::specs::Listing::listed_answer))]
fn check_listed(index: &[u8], sequence: &[u8], header: &[u8]) -> Result<VolumeRecord, Refusal>
    ensures { result ≡ listed_answer index.now sequence.now header.now }
{
    if MOST_LISTED < index.len() || MOST_LISTED < sequence.len() || MOST_LISTED < header.len() {
        return Err(Refusal::TooLarge);
    }
    volume::check_volume(index, sequence, header)
}

// Writes the listing of a volume at the start of the output; how many bytes it has.
pub fn write_listing(
    index: &[u8],
    sequence: &[u8],
    header: &[u8],
    out: &mut [u8; LISTING_ROOM],
) -> usize
    ensures len { result ≡ length (listing_text index.now sequence.now header.now) }
    ensures out { out.new ≡ written_at 0 (listing_text index.now sequence.now header.now) out.old }
{
    let mut text = Text { out, at: 0 };
    match check_listed(index, sequence, header) {
        Ok(v) => text.volume(index, sequence, v),
        Err(r) => text.refused(u32::from(r) as usize),
    }
    text.at
}
