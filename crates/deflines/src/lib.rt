// The def-lines of a record that passes its check: titles and identifiers.
#![tactic(auto)]

mod inside;
mod values;

ghost use Rattle.std.specs.Prelude.{◌≡◌, [], ◌∷◌, ◌+◌, ◌≤◌, length};
ghost use Rattle.std.specs.ControlFlow.{break_value};
ghost use Rattle.deflines.specs.Fields.{elements_in, field_at, field_identifiers, titles_in, titles_of, identifiers_in, identifiers_of, first_titles};
ghost use Rattle.deflines.specs.Numbered.{item_from};
ghost use Rattle.deflines.specs.Calls.{title_of, identifier_of, first_of};

use answers::Refusal;
use elements::Span;
use inside::elements_in;
use std::ops::ControlFlow;
use values::identifier_at;

// The titles given before a title, and the numbers of identifiers, count through all def-lines of a record.

// An object-id, which tags or names anything: a number, or text in the header file.
#[derive(Clone, Copy)]
pub enum ObjectId {
    Number(i64),
    Text(Span),
}

// What a text id gives of its sequence.
#[derive(Clone, Copy)]
pub struct TextId {
    pub name: Option<Span>,
    pub accession: Option<Span>,
    pub release: Option<Span>,
    pub version: Option<i64>,
}

// A sequence that was imported.
#[derive(Clone, Copy)]
pub struct Import {
    pub id: i64,
    pub db: Option<Span>,
    pub release: Option<Span>,
}

// The number of a patent, or of its application.
#[derive(Clone, Copy)]
pub enum PatentNumber {
    Number(Span),
    Application(Span),
}

// A sequence of a patent, and the patent that is cited.
#[derive(Clone, Copy)]
pub struct Patent {
    pub seqid: i64,
    pub country: Span,
    pub number: PatentNumber,
    pub doc_type: Option<Span>,
}

// A tag in another database.
#[derive(Clone, Copy)]
pub struct DatabaseTag {
    pub db: Span,
    pub tag: ObjectId,
}

// The fields of a date.
#[derive(Clone, Copy)]
pub struct DateFields {
    pub year: i64,
    pub month: Option<i64>,
    pub day: Option<i64>,
    pub season: Option<Span>,
    pub hour: Option<i64>,
    pub minute: Option<i64>,
    pub second: Option<i64>,
}

// A date: its text, or its fields.
#[derive(Clone, Copy)]
pub enum Date {
    Text(Span),
    Fields(DateFields),
}

// A molecule of a structure, and its chain.
#[derive(Clone, Copy)]
pub struct Structure {
    pub mol: Span,
    pub chain: i64,
    pub release: Option<Date>,
}

// An identifier, by its kind in source 001.
#[derive(Clone, Copy)]
pub enum Identifier {
    Local(ObjectId),
    Gibbsq(i64),
    Gibbmt(i64),
    Giim(Import),
    Genbank(TextId),
    Embl(TextId),
    Pir(TextId),
    Swissprot(TextId),
    Patent(Patent),
    Other(TextId),
    General(DatabaseTag),
    Gi(i64),
    Ddbj(TextId),
    Prf(TextId),
    Pdb(Structure),
    Tpg(TextId),
    Tpe(TextId),
    Tpd(TextId),
    Gpipe(TextId),
    NamedAnnotTrack(TextId),
}

// A field of a def-line: its title, the list of its identifiers, or another field.
#[derive(Clone, Copy)]
pub enum Field {
    Title(Span),
    Identifiers(usize),
    Other,
}

// The field of a def-line at a place.
#[tactic(auto, unfolding(crate::specs::Fields::field_at))]
fn field_at(s: &[u8], p: usize) -> Field
    requires { p + 2 ≤ length s.now }
    ensures { result ≡ field_at s.now p }
{
    match fields::byte(s, p) {
        160 => elements::text(s, p + 2).map_or(Field::Other, |t| Field::Title(t)),
        161 => Field::Identifiers(p + 2),
        _ => Field::Other,
    }
}

// The item itself where none is left to pass; else one less is left.
fn pass<T: Copy>(item: T, left: u64) -> ControlFlow<T, u64>
    ensures { result ≡ item_from (item ∷ []) left }
{
    if left == 0 {
        return ControlFlow::Break(item);
    }
    ControlFlow::Continue(left - 1)
}

// The title after k others of the def-line at a place: the walk stops for titles and steps past every other field.
fn title_in_line(s: &[u8], line: usize, k: u64) -> ControlFlow<Span, u64>
    requires { line + 2 ≤ length s.now }
    ensures { result ≡ item_from (titles_in s.now line) k }
{
    let mut left = k;
    for p in elements_in(s, line) {
        let Field::Title(t) = field_at(s, p) else {
            continue;
        };
        left = pass(t, left)?;
    }
    ControlFlow::Continue(left)
}

// The title after k others of the record at a place.
fn title_in_record(s: &[u8], start: usize, k: u64) -> ControlFlow<Span, u64>
    requires { start + 2 ≤ length s.now }
    ensures { result ≡ item_from (titles_of s.now start) k }
{
    elements_in(s, start).try_fold(k, |left, line| title_in_line(s, line, left))
}

// The place of the element after k others of the list at a place.
fn element_in_list(s: &[u8], list: usize, k: u64) -> ControlFlow<usize, u64>
    requires { list ≤ length s.now }
    ensures { result ≡ item_from (elements_in s.now list) k }
{
    elements_in(s, list).try_fold(k, |left, p| pass(p, left))
}

// The place of the identifier after k others of the field at a place.
#[tactic(auto, using(crate::proofs::Fields::list_inside))]
fn identifier_in_field(s: &[u8], p: usize, k: u64) -> ControlFlow<usize, u64>
    requires { p + 2 ≤ length s.now }
    ensures { result ≡ item_from (field_identifiers s.now (field_at s.now p)) k }
{
    match field_at(s, p) {
        Field::Identifiers(list) => element_in_list(s, list, k),
        _ => ControlFlow::Continue(k),
    }
}

// The place of the identifier after k others of the def-line at a place.
fn identifier_in_line(s: &[u8], line: usize, k: u64) -> ControlFlow<usize, u64>
    requires { line + 2 ≤ length s.now }
    ensures { result ≡ item_from (identifiers_in s.now line) k }
{
    elements_in(s, line).try_fold(k, |left, p| identifier_in_field(s, p, left))
}

// The place of the identifier after k others of the record at a place.
fn identifier_in_record(s: &[u8], start: usize, k: u64) -> ControlFlow<usize, u64>
    requires { start + 2 ≤ length s.now }
    ensures { result ≡ item_from (identifiers_of s.now start) k }
{
    elements_in(s, start).try_fold(k, |left, line| identifier_in_line(s, line, left))
}

// The title after so many others of the record from start up to end of a header file.
#[tactic(auto, using(crate::proofs::Calls::passed_room, crate::proofs::Calls::passed_sized), unfolding(crate::specs::Calls::title_of))]
pub fn title(header: &[u8], start: u64, end: u64, given: u64) -> Result<Span, Refusal>
    ensures { result ≡ title_of header.now start end given }
{
    headers::check_record(header, start, end)?;
    let stop = end as usize;
    title_in_record(&header[..stop], start as usize, given)
        .break_value()
        .ok_or(Refusal::NoSuchSequence)
}

// The identifier of a number, from 0 over all def-lines, of the record from start up to end of a header file.
#[tactic(auto, using(crate::proofs::Calls::passed_room, crate::proofs::Calls::passed_sized, crate::proofs::Identifiers::identifier_room), unfolding(crate::specs::Calls::identifier_of))]
pub fn find_identifier(
    header: &[u8],
    start: u64,
    end: u64,
    number: u64,
) -> Result<Identifier, Refusal>
    ensures { result ≡ identifier_of header.now start end number }
{
    headers::check_record(header, start, end)?;
    let stop = end as usize;
    let s = &header[..stop];
    match identifier_in_record(s, start as usize, number) {
        ControlFlow::Break(p) => Ok(identifier_at(s, p)),
        ControlFlow::Continue(_) => Err(Refusal::NoSuchSequence),
    }
}

// The title of the first def-line of the record at a place.
#[tactic(auto, using(crate::proofs::Calls::line_room, crate::proofs::Calls::first_none, crate::proofs::Calls::first_line_lem))]
fn title_in_first(s: &[u8], start: usize) -> Option<Span>
    requires { start + 2 ≤ length s.now }
    ensures { result ≡ break_value (item_from (first_titles s.now start) 0) }
{
    let line = element_in_list(s, start, 0).break_value()?;
    title_in_line(s, line, 0).break_value()
}

// The first def-line's title, where it has one, of the record from start up to end of a header file.
#[tactic(auto, using(crate::proofs::Calls::passed_room, crate::proofs::Calls::passed_sized), unfolding(crate::specs::Calls::first_of))]
pub fn first_title(header: &[u8], start: u64, end: u64) -> Result<Option<Span>, Refusal>
    ensures { result ≡ first_of header.now start end }
{
    headers::check_record(header, start, end)?;
    let stop = end as usize;
    Ok(title_in_first(&header[..stop], start as usize))
}
