// The header record calls: 7 identifier, 8 walker step, 9 label.
use crate::input::{End, Input};
use crate::output::{put_answer, put_hex};
use std::io::Read;

// The arguments after a header file: a record's start and end, and a number.
#[derive(Clone, Copy)]
struct Record {
    start: u64,
    end: u64,
    number: u64,
}

fn take_record<R: Read>(input: &mut Input<R>) -> Result<Record, End> {
    Ok(Record {
        start: input.take_number()?,
        end: input.take_number()?,
        number: input.take_number()?,
    })
}

pub fn find_identifier<R: Read>(input: &mut Input<R>, line: &mut String) -> Result<(), End> {
    let header = input.take_range()?;
    let record = take_record(input)?;
    let answer = deflines::find_identifier(
        header.as_slice(),
        record.start,
        record.end,
        record.number,
    );
    put_answer(line, answer)?;
    Ok(())
}

pub fn step_on<R: Read>(input: &mut Input<R>, line: &mut String) -> Result<(), End> {
    let header = input.take_range()?;
    let record = take_record(input)?;
    let step = labels::next_title(header.as_slice(), record.start, record.end, record.number);
    put_answer(line, step.answer)?;
    Ok(())
}

pub fn label<R: Read>(input: &mut Input<R>, line: &mut String) -> Result<(), End> {
    let index = input.take_range()?;
    let header = input.take_range()?;
    let number = input.take_number()?;
    let answer = labels::label_number(index.as_slice(), header.as_slice(), number);
    write!(line, "{answer}")?;
    let part = labels::label_part(index.as_slice(), header.as_slice(), number);
    put_hex(line, part)?;
    Ok(())
}
