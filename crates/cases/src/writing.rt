// Writing nucleotides: calls 14 and 15.
use crate::input::{End, Input};
use crate::output::{PutValues, put_answer, put_hex};
use nucleotides::Written;
use std::alloc::AllocError;
use std::io::Read;

// The sizes of both parts.
impl PutValues for Written {
    fn put_values(&self, line: &mut String) -> Result<(), AllocError> {
        self.two_bit.put_values(line)?;
        self.table.put_values(line)
    }
}

pub fn write_nucleotides<R: Read>(input: &mut Input<R>, line: &mut String) -> Result<(), End> {
    let codes = input.take_range()?;
    let mut out = input.take_output::<u8>()?;
    let answer = nucleotides::write_nucleotides(codes.as_slice(), out.as_mut_slice());
    put_answer(line, answer)?;
    put_hex(line, out.as_slice())?;
    Ok(())
}

pub fn bases_of_code<R: Read>(input: &mut Input<R>, line: &mut String) -> Result<(), End> {
    let code = input.take_narrow()?;
    put_answer(line, nucleotides::bases_of_code(code))?;
    Ok(())
}
