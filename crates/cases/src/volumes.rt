// The volume calls: 1 volume check, 2 decode, 10 console volume check.
use crate::input::{End, Input};
use crate::output::{PutValues, put_answer, put_hex};
use std::alloc::AllocError;
use std::io::Read;
use volume::VolumeRecord;

impl PutValues for VolumeRecord {
    fn put_values(&self, line: &mut String) -> Result<(), AllocError> {
        self.kind.put_values(line)?;
        self.sequences.put_values(line)?;
        self.residues.put_values(line)?;
        self.longest.put_values(line)?;
        self.title_start.put_values(line)?;
        self.title_length.put_values(line)?;
        self.timestamp_start.put_values(line)?;
        self.timestamp_length.put_values(line)
    }
}

pub fn check_volume<R: Read>(input: &mut Input<R>, line: &mut String) -> Result<(), End> {
    let index = input.take_range()?;
    let sequence = input.take_range()?;
    let header = input.take_range()?;
    let answer = volume::check_volume(index.as_slice(), sequence.as_slice(), header.as_slice());
    put_answer(line, answer)?;
    Ok(())
}

pub fn decode<R: Read>(input: &mut Input<R>, line: &mut String) -> Result<(), End> {
    let index = input.take_range()?;
    let sequence = input.take_range()?;
    let number = input.take_number()?;
    let mut out = input.take_output::<u8>()?;
    let answer = sequence::decode(
        index.as_slice(),
        sequence.as_slice(),
        number,
        out.as_mut_slice(),
    );
    put_answer(line, answer)?;
    put_hex(line, out.as_slice())?;
    Ok(())
}

pub fn console_check_volume<R: Read>(input: &mut Input<R>, line: &mut String) -> Result<(), End> {
    let index = input.take_range()?;
    let sequence = input.take_range()?;
    let header = input.take_range()?;
    let mut results = input.take_output::<u8>()?;
    let answer = console::gull_check_volume(
        index.as_slice(),
        sequence.as_slice(),
        header.as_slice(),
        results.as_mut_slice(),
    );
    write!(line, "{answer}")?;
    put_hex(line, results.as_slice())?;
    Ok(())
}
