// The values of an identifier, for call 7; and call 23, the name of a kind.
use crate::input::{End, Input};
use crate::output::{PutValues, put_answer, put_hex};
use deflines::{
    DatabaseTag, Date, DateFields, Identifier, Import, ObjectId, Patent, PatentNumber, Structure,
    TextId,
};
use std::alloc::AllocError;
use std::io::Read;

impl PutValues for ObjectId {
    fn put_values(&self, line: &mut String) -> Result<(), AllocError> {
        match self {
            ObjectId::Number(n) => put_case(line, 0, n),
            ObjectId::Text(span) => put_case(line, 1, span),
        }
    }
}

impl PutValues for Import {
    fn put_values(&self, line: &mut String) -> Result<(), AllocError> {
        self.id.put_values(line)?;
        self.db.put_values(line)?;
        self.release.put_values(line)
    }
}

impl PutValues for TextId {
    fn put_values(&self, line: &mut String) -> Result<(), AllocError> {
        self.name.put_values(line)?;
        self.accession.put_values(line)?;
        self.release.put_values(line)?;
        self.version.put_values(line)
    }
}

impl PutValues for PatentNumber {
    fn put_values(&self, line: &mut String) -> Result<(), AllocError> {
        match self {
            PatentNumber::Number(span) => put_case(line, 0, span),
            PatentNumber::Application(span) => put_case(line, 1, span),
        }
    }
}

impl PutValues for Patent {
    fn put_values(&self, line: &mut String) -> Result<(), AllocError> {
        self.seqid.put_values(line)?;
        self.country.put_values(line)?;
        self.number.put_values(line)?;
        self.doc_type.put_values(line)
    }
}

impl PutValues for DatabaseTag {
    fn put_values(&self, line: &mut String) -> Result<(), AllocError> {
        self.db.put_values(line)?;
        self.tag.put_values(line)
    }
}

impl PutValues for DateFields {
    fn put_values(&self, line: &mut String) -> Result<(), AllocError> {
        self.year.put_values(line)?;
        self.month.put_values(line)?;
        self.day.put_values(line)?;
        self.season.put_values(line)?;
        self.hour.put_values(line)?;
        self.minute.put_values(line)?;
        self.second.put_values(line)
    }
}

impl PutValues for Date {
    fn put_values(&self, line: &mut String) -> Result<(), AllocError> {
        match self {
            Date::Text(span) => put_case(line, 0, span),
            Date::Fields(fields) => put_case(line, 1, fields),
        }
    }
}

impl PutValues for Structure {
    fn put_values(&self, line: &mut String) -> Result<(), AllocError> {
        self.mol.put_values(line)?;
        self.chain.put_values(line)?;
        self.release.put_values(line)
    }
}

// A case of a choice: its number, and its values.
fn put_case<T: PutValues>(line: &mut String, number: u64, values: &T) -> Result<(), AllocError> {
    number.put_values(line)?;
    values.put_values(line)
}

// A kind, as its tag byte, and the values of its body.
impl PutValues for Identifier {
    fn put_values(&self, line: &mut String) -> Result<(), AllocError> {
        match self {
            Identifier::Local(object) => put_case(line, 160, object),
            Identifier::Gibbsq(n) => put_case(line, 161, n),
            Identifier::Gibbmt(n) => put_case(line, 162, n),
            Identifier::Giim(import) => put_case(line, 163, import),
            Identifier::Genbank(id) => put_case(line, 164, id),
            Identifier::Embl(id) => put_case(line, 165, id),
            Identifier::Pir(id) => put_case(line, 166, id),
            Identifier::Swissprot(id) => put_case(line, 167, id),
            Identifier::Patent(patent) => put_case(line, 168, patent),
            Identifier::Other(id) => put_case(line, 169, id),
            Identifier::General(general) => put_case(line, 170, general),
            Identifier::Gi(n) => put_case(line, 171, n),
            Identifier::Ddbj(id) => put_case(line, 172, id),
            Identifier::Prf(id) => put_case(line, 173, id),
            Identifier::Pdb(structure) => put_case(line, 174, structure),
            Identifier::Tpg(id) => put_case(line, 175, id),
            Identifier::Tpe(id) => put_case(line, 176, id),
            Identifier::Tpd(id) => put_case(line, 177, id),
            Identifier::Gpipe(id) => put_case(line, 178, id),
            Identifier::NamedAnnotTrack(id) => put_case(line, 179, id),
        }
    }
}

pub fn kind_name<R: Read>(input: &mut Input<R>, line: &mut String) -> Result<(), End> {
    let kind = input.take_narrow()?;
    let mut out = input.take_output::<u8>()?;
    let answer = kinds::kind_name(kind, out.as_mut_slice());
    put_answer(line, answer)?;
    put_hex(line, out.as_slice())?;
    Ok(())
}
