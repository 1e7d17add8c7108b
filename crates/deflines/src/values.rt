// The values of an identifier, by its kind: what stands in the fields of its body.
ghost use Rattle.std.specs.Prelude.{◌≡◌, ◌+◌, ◌≤◌, length, IfSome};
ghost use Rattle.deflines.specs.Identifiers.{text_held, integer_held, field_in, held_in, optional_text, optional_integer};
ghost use Rattle.deflines.specs.Identifiers.{object_id_at, import_at, text_id_at, patent_number_at, patent_at, database_tag_at, date_fields_at, date_at};
ghost use Rattle.deflines.specs.Identifiers.{optional_date, structure_at, text_identifier, identifier_at};

use super::inside::elements_in;
use super::{
    DatabaseTag, Date, DateFields, Identifier, Import, ObjectId, Patent, PatentNumber, Structure,
    TextId,
};
use elements::Span;

// The text at a place.
fn text_held(s: &[u8], p: usize) -> Span
    ensures { result ≡ text_held s.now p }
{
    elements::text(s, p).unwrap_or(Span { start: 0, len: 0 })
}

// The integer at a place.
fn integer_held(s: &[u8], p: usize) -> i64
    ensures { result ≡ integer_held s.now p }
{
    elements::integer(s, p).unwrap_or(0)
}

// The object-id at a place.
#[tactic(auto, unfolding(crate::specs::Identifiers::object_id_at))]
fn object_id_at(s: &[u8], p: usize) -> ObjectId
    requires { p ≤ length s.now + 2 }
    ensures { result ≡ object_id_at s.now p }
{
    if fields::byte(s, p) == 160 {
        return ObjectId::Number(integer_held(s, p + 2));
    }
    ObjectId::Text(text_held(s, p + 2))
}

// The number of a patent at a place.
#[tactic(auto, unfolding(crate::specs::Identifiers::patent_number_at))]
fn patent_number_at(s: &[u8], p: usize) -> PatentNumber
    requires { p ≤ length s.now + 2 }
    ensures { result ≡ patent_number_at s.now p }
{
    let number = text_held(s, p + 2);
    if fields::byte(s, p) == 160 {
        return PatentNumber::Number(number);
    }
    PatentNumber::Application(number)
}

// The date at a place.
#[tactic(auto, unfolding(crate::specs::Identifiers::date_at))]
fn date_at(s: &[u8], p: usize) -> Date
    requires { p ≤ length s.now }
    ensures { result ≡ date_at s.now p }
{
    if fields::byte(s, p) == 160 {
        return Date::Text(text_held(s, p + 2));
    }
    Date::Fields(Record { s, at: p + 2 }.date_fields())
}

// A record of a header file, whose fields are found by their tags.
#[derive(Clone, Copy)]
struct Record<'a> {
    s: &'a [u8],
    at: usize,
    ghost within: { at ≤ length s.now + 2 },
}

impl Record<'_> {
    // The place of the field with a tag.
    fn field(&self, tag: u8) -> Option<usize>
        ensures value { result ≡ field_in self.now.s.now self.now.at tag }
        ensures room { IfSome result (λ p. p + 2 ≤ length self.now.s.now) }
    {
        elements_in(self.s, self.at).find(|p| fields::byte(self.s, *p) == tag)
    }

    // The place of what a required field holds.
    fn held(&self, tag: u8) -> usize
        ensures value { result ≡ held_in self.now.s.now self.now.at tag }
        ensures room { result ≤ length self.now.s.now + 2 }
    {
        self.field(tag).map_or(self.at, |p| p + 2)
    }

    // The text of a required field.
    fn text(&self, tag: u8) -> Span
        ensures { result ≡ text_held self.now.s.now (held_in self.now.s.now self.now.at tag) }
    {
        text_held(self.s, self.held(tag))
    }

    // The integer of a required field.
    fn integer(&self, tag: u8) -> i64
        ensures { result ≡ integer_held self.now.s.now (held_in self.now.s.now self.now.at tag) }
    {
        integer_held(self.s, self.held(tag))
    }

    // The text of a field that may be left out.
    fn optional_text(&self, tag: u8) -> Option<Span>
        ensures { result ≡ optional_text self.now.s.now (field_in self.now.s.now self.now.at tag) }
    {
        self.field(tag).map(|p| text_held(self.s, p + 2))
    }

    // The integer of a field that may be left out.
    fn optional_integer(&self, tag: u8) -> Option<i64>
        ensures { result ≡ optional_integer self.now.s.now (field_in self.now.s.now self.now.at tag) }
    {
        self.field(tag).map(|p| integer_held(self.s, p + 2))
    }

    // The date of a field that may be left out.
    fn optional_date(&self, tag: u8) -> Option<Date>
        ensures { result ≡ optional_date self.now.s.now (field_in self.now.s.now self.now.at tag) }
    {
        self.field(tag).map(|p| date_at(self.s, p + 2))
    }

    // An import id.
    #[tactic(auto, unfolding(crate::specs::Identifiers::import_at))]
    fn import(&self) -> Import
        ensures { result ≡ import_at self.now.s.now self.now.at }
    {
        Import {
            id: self.integer(160),
            db: self.optional_text(161),
            release: self.optional_text(162),
        }
    }

    // A text id.
    #[tactic(auto, unfolding(crate::specs::Identifiers::text_id_at))]
    fn text_id(&self) -> TextId
        ensures { result ≡ text_id_at self.now.s.now self.now.at }
    {
        let name = self.optional_text(160);
        let accession = self.optional_text(161);
        let release = self.optional_text(162);
        let version = self.optional_integer(163);
        TextId {
            name,
            accession,
            release,
            version,
        }
    }

    // A patent id, with the patent that it cites.
    #[tactic(auto, unfolding(crate::specs::Identifiers::patent_at))]
    fn patent(&self) -> Patent
        ensures { result ≡ patent_at self.now.s.now self.now.at }
    {
        let cited = Record {
            s: self.s,
            at: self.held(161),
        };
        Patent {
            seqid: self.integer(160),
            country: cited.text(160),
            number: patent_number_at(cited.s, cited.held(161)),
            doc_type: cited.optional_text(162),
        }
    }

    // A database's tag.
    #[tactic(auto, unfolding(crate::specs::Identifiers::database_tag_at))]
    fn database_tag(&self) -> DatabaseTag
        ensures { result ≡ database_tag_at self.now.s.now self.now.at }
    {
        DatabaseTag {
            db: self.text(160),
            tag: object_id_at(self.s, self.held(161)),
        }
    }

    // The fields of a date.
    #[tactic(auto, unfolding(crate::specs::Identifiers::date_fields_at))]
    fn date_fields(&self) -> DateFields
        ensures { result ≡ date_fields_at self.now.s.now self.now.at }
    {
        DateFields {
            year: self.integer(160),
            month: self.optional_integer(161),
            day: self.optional_integer(162),
            season: self.optional_text(163),
            hour: self.optional_integer(164),
            minute: self.optional_integer(165),
            second: self.optional_integer(166),
        }
    }

    // A structure id; a chain that is absent is 32.
    #[tactic(auto, unfolding(crate::specs::Identifiers::structure_at))]
    fn structure(&self) -> Structure
        ensures { result ≡ structure_at self.now.s.now self.now.at }
    {
        Structure {
            mol: self.text(160),
            chain: self.optional_integer(161).unwrap_or(32),
            release: self.optional_date(162),
        }
    }
}

// A text id by its kind's tag.
fn text_identifier(tag: u8, id: TextId) -> Identifier
    ensures { result ≡ text_identifier tag id }
{
    match tag {
        164 => Identifier::Genbank(id),
        165 => Identifier::Embl(id),
        166 => Identifier::Pir(id),
        167 => Identifier::Swissprot(id),
        169 => Identifier::Other(id),
        172 => Identifier::Ddbj(id),
        173 => Identifier::Prf(id),
        175 => Identifier::Tpg(id),
        176 => Identifier::Tpe(id),
        177 => Identifier::Tpd(id),
        178 => Identifier::Gpipe(id),
        _ => Identifier::NamedAnnotTrack(id),
    }
}

// The identifier at a place.
#[tactic(auto, unfolding(crate::specs::Identifiers::identifier_at))]
pub(crate) fn identifier_at(s: &[u8], p: usize) -> Identifier
    requires { p + 2 ≤ length s.now }
    ensures { result ≡ identifier_at s.now p }
{
    let body = p + 2;
    let record = Record { s, at: body };
    let tag = fields::byte(s, p);
    match tag {
        160 => Identifier::Local(object_id_at(s, body)),
        161 => Identifier::Gibbsq(integer_held(s, body)),
        162 => Identifier::Gibbmt(integer_held(s, body)),
        163 => Identifier::Giim(record.import()),
        168 => Identifier::Patent(record.patent()),
        170 => Identifier::General(record.database_tag()),
        171 => Identifier::Gi(integer_held(s, body)),
        174 => Identifier::Pdb(record.structure()),
        _ => text_identifier(tag, record.text_id()),
    }
}
