// Header elements: integers, texts, lists and choices, read by a form that says what may stand where.
#![tactic(auto)]

mod grammar;

ghost use Rattle.std.specs.Prelude.{◌≡◌, ◌≤◌, length, Ok, Err};
ghost use Rattle.laws.specs.Digits.{value};
ghost use Rattle.elements.specs.Parts.{part_at, is_padded, integer_allowed, integer_part, long_part, text_part, integer_at, text_at};
ghost use Rattle.elements.specs.Reading.{opens, closes, begins, too_deep, start_of, closed_at, read};
ghost use Rattle.elements.specs.Shortest.{twos_complement};

use answers::Refusal;

// The records of source 001, which have fields.
#[derive(Clone, Copy)]
pub enum RecordKind {
    DefLine,
    GiimportId,
    TextseqId,
    PatentSeqId,
    IdPat,
    Dbtag,
    PdbSeqId,
    DateStd,
}

// What an element at a place has to be; Any asks for nothing but the nesting. A field stands in a record; an identifier, an object-id, a
// patent's number and a date are choices.
#[derive(Clone, Copy)]
pub enum Form {
    Any,
    Integer,
    Text,
    Integers,
    DefLines,
    Identifiers,
    Record(RecordKind),
    Field(RecordKind),
    Identifier,
    ObjectId,
    PatentNumber,
    Date,
}

// A part of a header file.
#[derive(Clone, Copy)]
pub struct Span {
    pub start: usize,
    pub len: usize,
}

// How an element begins: it is read to its end, or it is a list or a choice, with the form of what stands inside.
#[derive(Clone, Copy)]
pub enum Start {
    Ended(usize),
    List(Form),
    Choice(Form),
}

// n bytes from a place on, which may not run past the end.
fn part_at(s: &[u8], at: usize, n: usize) -> Result<Span, Refusal>
    requires { at ≤ length s.now }
    ensures { result ≡ part_at s.now at n }
{
    if s.len() - at < n {
        return Err(Refusal::BadHeader);
    }
    Ok(Span { start: at, len: n })
}

// Whether some bytes are a padded integer: the first nine bits of more than one byte are all 0 or all 1.
fn is_padded(bytes: &[u8]) -> bool
    ensures { result ≡ is_padded bytes.now }
{
    if bytes.len() <= 1 {
        return false;
    }
    let first = u32::from(bytes[0]);
    let second = u32::from(bytes[1]);
    let nine = first * 2 + second / 128;
    nine == 0 || nine == 511
}

// Whether some bytes are an integer's.
fn integer_allowed(bytes: &[u8]) -> bool
    ensures { result ≡ integer_allowed bytes.now }
{
    (1..=8).contains(&bytes.len()) && !is_padded(bytes)
}

// The bytes of an integer whose length stands at a place.
fn integer_part(s: &[u8], at: usize) -> Result<Span, Refusal>
    ensures { result ≡ integer_part s.now at }
{
    if s.len() <= at {
        return Err(Refusal::BadHeader);
    }
    let part = part_at(s, at + 1, usize::from(s[at]))?;
    if !integer_allowed(&s[part.start..part.start + part.len]) {
        return Err(Refusal::BadHeader);
    }
    Ok(part)
}

// The big-endian number of at most eight bytes.
fn number(bytes: &[u8]) -> u64
    requires { length bytes.now ≤ 8 }
    ensures { result ≡ value 8 0 bytes.now }
{
    let mut x: u64 = 0;
    for b in bytes {
        x = x * 256 + u64::from(*b);
    }
    x
}

// The text after a length of k bytes.
fn long_part(s: &[u8], at: usize, k: usize) -> Result<Span, Refusal>
    requires { (at ≤ length s.now) × (k ≤ 8) }
    ensures { result ≡ long_part s.now at k }
{
    if s.len() - at < k {
        return Err(Refusal::BadHeader);
    }
    let n = number(&s[at..at + k]) as usize;
    part_at(s, at + k, n)
}

// The bytes of a text whose length stands at a place.
fn text_part(s: &[u8], at: usize) -> Result<Span, Refusal>
    ensures { result ≡ text_part s.now at }
{
    if s.len() <= at {
        return Err(Refusal::BadHeader);
    }
    let b = usize::from(s[at]);
    match b {
        0..128 => part_at(s, at + 1, b),
        129..=132 => long_part(s, at + 1, b - 128),
        _ => Err(Refusal::BadHeader),
    }
}

// Whether the byte 80 stands at a place.
fn opens_at(s: &[u8], at: usize) -> bool
    ensures { result ≡ opens s.now at }
{
    at < s.len() && s[at] == 128
}

// Whether 00 00 stands at a place.
pub fn closes_at(s: &[u8], at: usize) -> bool
    ensures { result ≡ closes s.now at }
{
    if s.len() <= at || s.len() - at < 2 {
        return false;
    }
    s[at] == 0 && s[at + 1] == 0
}

// Whether a byte begins an element.
fn begins_element(b: u8) -> bool
    ensures { result ≡ begins b }
{
    matches!(b, 2 | 26 | 48 | 160..=179)
}

// The refusal at depth 17.
fn too_deep(s: &[u8], at: usize) -> Refusal
    ensures { Err result ≡ too_deep s.now at }
{
    if begins_element(fields::byte(s, at)) {
        return Refusal::TooDeep;
    }
    Refusal::BadHeader
}

// How an element of a form begins.
fn start_of(s: &[u8], at: usize, form: Form) -> Result<Start, Refusal>
    ensures { result ≡ start_of form s.now at }
{
    if s.len() <= at {
        return Err(Refusal::BadHeader);
    }
    let b = s[at];
    if !form.may_begin(b) {
        return Err(Refusal::BadHeader);
    }
    if b == 2 {
        let part = integer_part(s, at + 1)?;
        return Ok(Start::Ended(part.start + part.len));
    }
    if b == 26 {
        let part = text_part(s, at + 1)?;
        return Ok(Start::Ended(part.start + part.len));
    }
    if !opens_at(s, at + 1) {
        return Err(Refusal::BadHeader);
    }
    match b {
        48 => Ok(Start::List(form.inside(b))),
        160..=179 => Ok(Start::Choice(form.inside(b))),
        _ => Err(Refusal::BadHeader),
    }
}

// 00 00 behind the one element of a choice.
fn closed(s: &[u8], n: usize) -> Result<usize, Refusal>
    ensures { result ≡ closed_at s.now (Ok n) }
{
    if closes_at(s, n) {
        return Ok(n + 2);
    }
    Err(Refusal::BadHeader)
}

// Reads the element at a place by a form, with so many depths left.
fn element_within(s: &[u8], at: usize, form: Form, depth: u32) -> Result<usize, Refusal>
    ensures { result ≡ read depth form s.now at }
{
    if depth == 0 {
        return Err(too_deep(s, at));
    }
    match start_of(s, at, form)? {
        Start::Ended(end) => Ok(end),
        Start::Choice(inner) => {
            let end = element_within(s, at + 2, inner, depth - 1)?;
            closed(s, end)
        }
        Start::List(inner) => {
            let mut p = at + 2;
            let mut low: u8 = 160;
            while !closes_at(s, p) {
                let b = fields::byte(s, p);
                if !form.may_follow(low, b) {
                    return Err(Refusal::BadHeader);
                }
                p = element_within(s, p, inner, depth - 1)?;
                low = b + 1;
            }
            if !form.may_close(low) {
                return Err(Refusal::BadHeader);
            }
            Ok(p + 2)
        }
    }
}

// Reads the element at a place by a form; it and what is inside it may go 16 deep.
pub fn element(s: &[u8], at: usize, form: Form) -> Result<usize, Refusal>
    ensures { result ≡ read 16 form s.now at }
{
    element_within(s, at, form, 16)
}

// The text element at a place.
pub fn text(s: &[u8], at: usize) -> Result<Span, Refusal>
    ensures { result ≡ text_at s.now at }
{
    if fields::byte(s, at) != 26 {
        return Err(Refusal::BadHeader);
    }
    text_part(s, at + 1)
}

// The two's complement number of one to eight bytes.
fn signed(bytes: &[u8]) -> i64
    requires { (1 ≤ length bytes.now) × (length bytes.now ≤ 8) }
    ensures { result ≡ twos_complement bytes.now }
{
    let x = number(bytes);
    let most = u64::MAX >> (64 - 8 * bytes.len());
    if x <= most / 2 {
        return x as i64;
    }
    !((most - x) as i64)
}

// The integer element at a place.
pub fn integer(s: &[u8], at: usize) -> Result<i64, Refusal>
    ensures { result ≡ integer_at s.now at }
{
    if fields::byte(s, at) != 2 {
        return Err(Refusal::BadHeader);
    }
    let part = integer_part(s, at + 1)?;
    Ok(signed(&s[part.start..part.start + part.len]))
}
