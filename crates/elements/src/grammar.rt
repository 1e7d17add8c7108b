// The table of forms: how an element may begin, what stands inside it, what may follow another, and where a record may close.
ghost use Rattle.std.specs.Prelude.{◌≡◌};
ghost use Rattle.elements.specs.Grammar.{last_tag, optional_from, may_begin, field_body, identifier_body, inside, may_follow, may_close};

use super::{Form, RecordKind};

impl RecordKind {
    // The tag of a record's last field.
    fn last_tag(self) -> u8
        ensures { result ≡ last_tag self }
    {
        match self {
            RecordKind::DefLine => 165,
            RecordKind::GiimportId => 162,
            RecordKind::TextseqId => 163,
            RecordKind::PatentSeqId => 161,
            RecordKind::IdPat => 162,
            RecordKind::Dbtag => 161,
            RecordKind::PdbSeqId => 162,
            RecordKind::DateStd => 166,
        }
    }

    // The tag from which on a record's fields are optional; those before it are required.
    fn optional_from(self) -> u8
        ensures { result ≡ optional_from self }
    {
        match self {
            RecordKind::DefLine => 160,
            RecordKind::GiimportId => 161,
            RecordKind::TextseqId => 160,
            RecordKind::PatentSeqId => 162,
            RecordKind::IdPat => 162,
            RecordKind::Dbtag => 162,
            RecordKind::PdbSeqId => 161,
            RecordKind::DateStd => 161,
        }
    }

    // The form of a record's field, by its tag.
    fn field_body(self, b: u8) -> Form
        ensures { result ≡ field_body self b }
    {
        match (self, b) {
            (RecordKind::DefLine, 160) => Form::Text,
            (RecordKind::DefLine, 161) => Form::Identifiers,
            (RecordKind::DefLine, 162) => Form::Integer,
            (RecordKind::DefLine, _) => Form::Integers,
            (RecordKind::GiimportId, 160) => Form::Integer,
            (RecordKind::GiimportId, _) => Form::Text,
            (RecordKind::TextseqId, 163) => Form::Integer,
            (RecordKind::TextseqId, _) => Form::Text,
            (RecordKind::PatentSeqId, 160) => Form::Integer,
            (RecordKind::PatentSeqId, _) => Form::Record(RecordKind::IdPat),
            (RecordKind::IdPat, 161) => Form::PatentNumber,
            (RecordKind::IdPat, _) => Form::Text,
            (RecordKind::Dbtag, 160) => Form::Text,
            (RecordKind::Dbtag, _) => Form::ObjectId,
            (RecordKind::PdbSeqId, 160) => Form::Text,
            (RecordKind::PdbSeqId, 161) => Form::Integer,
            (RecordKind::PdbSeqId, _) => Form::Date,
            (RecordKind::DateStd, 163) => Form::Text,
            (RecordKind::DateStd, _) => Form::Integer,
        }
    }
}

// The form of an identifier's body, by its tag.
fn identifier_body(b: u8) -> Form
    ensures { result ≡ identifier_body b }
{
    match b {
        160 => Form::ObjectId,
        161 | 162 | 171 => Form::Integer,
        163 => Form::Record(RecordKind::GiimportId),
        168 => Form::Record(RecordKind::PatentSeqId),
        170 => Form::Record(RecordKind::Dbtag),
        174 => Form::Record(RecordKind::PdbSeqId),
        _ => Form::Record(RecordKind::TextseqId),
    }
}

impl Form {
    // Whether an element of a form may begin with a byte.
    pub(crate) fn may_begin(self, b: u8) -> bool
        ensures { result ≡ may_begin self b }
    {
        match self {
            Form::Any => true,
            Form::Integer => b == 2,
            Form::Text => b == 26,
            Form::Integers | Form::DefLines | Form::Identifiers | Form::Record(_) => b == 48,
            Form::Field(kind) => (160..=kind.last_tag()).contains(&b),
            Form::Identifier => (160..=179).contains(&b),
            Form::ObjectId | Form::PatentNumber | Form::Date => (160..=161).contains(&b),
        }
    }

    // The form of each element inside one of a form that begins with a byte.
    pub(crate) fn inside(self, b: u8) -> Form
        ensures { result ≡ inside self b }
    {
        match (self, b) {
            (Form::Any | Form::Integer | Form::Text, _) => Form::Any,
            (Form::Integers, _) => Form::Integer,
            (Form::DefLines, _) => Form::Record(RecordKind::DefLine),
            (Form::Identifiers, _) => Form::Identifier,
            (Form::Record(kind), _) => Form::Field(kind),
            (Form::Field(kind), _) => kind.field_body(b),
            (Form::Identifier, _) => identifier_body(b),
            (Form::ObjectId, 160) => Form::Integer,
            (Form::ObjectId | Form::PatentNumber, _) => Form::Text,
            (Form::Date, 160) => Form::Text,
            (Form::Date, _) => Form::Record(RecordKind::DateStd),
        }
    }

    // Whether an element that begins with a byte may stand where every first byte below `low` is past.
    pub(crate) fn may_follow(self, low: u8, b: u8) -> bool
        ensures { result ≡ may_follow self low b }
    {
        match self {
            Form::Record(kind) => low <= b && (kind.optional_from() <= low || b == low),
            _ => true,
        }
    }

    // Whether a list of a form may close where every first byte below `low` is past.
    pub(crate) fn may_close(self, low: u8) -> bool
        ensures { result ≡ may_close self low }
    {
        match self {
            Form::Record(kind) => kind.optional_from() <= low,
            _ => true,
        }
    }
}
