// One metadata record of a dsqdata set: name, accession and description, each closed by NUL, and a taxonomy id.
// The public function takes any bytes and any places.
#![tactic(auto)]

ghost use Rattle.std.specs.Prelude.{◌≡◌, true, false, not, ◌-◌, ◌≤◌, ◌<◌, eqb, length, IfSome};
ghost use Rattle.metadata.specs.Record.{stays_in, all_stay, is_text, closing, is_taxonomy, texts_in};

use fields::{Order, read};
use packets::BytePos;

// The lengths of a metadata record's name, accession and description.
#[derive(Clone, Copy)]
pub struct Texts {
    pub name: usize,
    pub accession: usize,
    pub description: usize,
}

// Whether a byte stands in a name or an accession. Letters are asked first: one test passes nearly every byte of a name.
fn stays_in_name(b: u8) -> bool
    ensures { result ≡ stays_in true b }
{
    b > 32 || !matches!(b, 0 | 9..=13 | 32)
}

// Where the NUL stands that closes the name or accession from one place on, before another. Past the file's end every byte is NUL.
fn closing_at(file: &[u8], from: usize, to: usize) -> Option<usize>
    ensures value { result ≡ closing true file.now (to - from) from }
    ensures within { IfSome result (λ p. (from ≤ p) × (p < to)) }
{
    let end = to.min(file.len());
    for p in from..end {
        let b = file[p];
        if !stays_in_name(b) {
            return if b == 0 { Some(p) } else { None };
        }
    }
    let behind = from.max(end);
    if behind < to { Some(behind) } else { None }
}

// A byte, or 0 where it does not stand in a description.
fn described(b: u8) -> u8
    ensures { not (eqb result 0) ≡ stays_in false b }
{
    if b == 10 { 0 } else { b }
}

// Whether all bytes stand in a description. No byte ends the loop early, so that the compiler tests several at once.
fn all_described(text: &[u8]) -> bool
    ensures { result ≡ all_stay false text.now 0 (length text.now) }
{
    let mut least: u8 = 255;
    for b in text {
        least = least.min(described(*b));
    }
    least != 0
}

// Whether the bytes from one place up to another are a description that the NUL there closes.
fn is_description(file: &[u8], from: usize, nul: usize) -> bool
    requires { from ≤ nul }
    ensures { result ≡ is_text false file.now from nul }
{
    if file.len() < nul {
        return from == nul;
    }
    fields::byte(file, nul) == 0 && all_described(&file[from..nul])
}

// Whether a number is a taxonomy id or unset.
fn is_taxonomy(id: i32) -> bool
    ensures { result ≡ is_taxonomy id }
{
    id == -1 || id > 0
}

// Reads the metadata record from one byte of a metadata file up to, not including, another, in the order of its set.
#[tactic(auto, unfolding(crate::specs::Record::texts_in))]
pub fn read_record(order: Order, file: &[u8], start: BytePos, end: BytePos) -> Option<Texts>
    ensures { result ≡ texts_in order file.now start.0 end.0 }
{
    let from = start.0 as usize;
    let to = end.0 as usize;
    let name_end = closing_at(file, from, to)?;
    if name_end == from {
        return None;
    }
    let accession_end = closing_at(file, name_end + 1, to)?;
    if to - accession_end < 6 {
        return None;
    }
    // The description's NUL can stand at one place alone: the four bytes behind it are the taxonomy id.
    let description_end = to - 5;
    if !is_description(file, accession_end + 1, description_end) {
        return None;
    }
    if !is_taxonomy(read::<i32>(order, file, description_end + 1)) {
        return None;
    }
    Some(Texts {
        name: name_end - from,
        accession: accession_end - (name_end + 1),
        description: description_end - (accession_end + 1),
    })
}
