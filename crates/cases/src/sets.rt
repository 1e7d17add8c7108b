// The set calls: 5 set check, 6 lookup.
use crate::input::{End, Input};
use crate::output::{PutValues, put_answer};
use dsqdata::{Located, SetRecord};
use fields::Order;
use std::alloc::AllocError;
use std::io::Read;

// The ten fields and the byte order of a record.
impl PutValues for SetRecord {
    fn put_values(&self, line: &mut String) -> Result<(), AllocError> {
        self.magic.put_values(line)?;
        self.tag.put_values(line)?;
        self.alphabet.put_values(line)?;
        self.flags.put_values(line)?;
        self.longest_name.put_values(line)?;
        self.longest_accession.put_values(line)?;
        self.longest_description.put_values(line)?;
        self.longest_sequence.put_values(line)?;
        self.count.put_values(line)?;
        self.residues.put_values(line)?;
        dsqdata::order_number(self.order).put_values(line)
    }
}

impl PutValues for Located {
    fn put_values(&self, line: &mut String) -> Result<(), AllocError> {
        self.start.0.put_values(line)?;
        self.bytes.put_values(line)?;
        self.run.0.put_values(line)?;
        self.packets.put_values(line)
    }
}

pub fn check_set<R: Read>(input: &mut Input<R>, line: &mut String) -> Result<(), End> {
    let index = input.take_range()?;
    let metadata = input.take_range()?;
    let sequence = input.take_range()?;
    let answer = dsqdata::check_set(index.as_slice(), metadata.as_slice(), sequence.as_slice());
    put_answer(line, answer)?;
    Ok(())
}

// The byte order that a number tells: 0 little-endian, any other big-endian.
fn order_told(number: u64) -> Order {
    match number {
        0 => Order::Little,
        _ => Order::Big,
    }
}

// The ten fields and the byte order of a record.
fn take_record<R: Read>(input: &mut Input<R>) -> Result<SetRecord, End> {
    Ok(SetRecord {
        magic: input.take_narrow()?,
        tag: input.take_narrow()?,
        alphabet: input.take_narrow()?,
        flags: input.take_narrow()?,
        longest_name: input.take_narrow()?,
        longest_accession: input.take_narrow()?,
        longest_description: input.take_narrow()?,
        longest_sequence: input.take_number()?,
        count: input.take_number()?,
        residues: input.take_number()?,
        order: order_told(input.take_number()?),
    })
}

pub fn look_up<R: Read>(input: &mut Input<R>, line: &mut String) -> Result<(), End> {
    let set = take_record(input)?;
    let index = input.take_range()?;
    let number = input.take_number()?;
    let answer = dsqdata::lookup(set, index.as_slice(), number);
    put_answer(line, answer)?;
    Ok(())
}
