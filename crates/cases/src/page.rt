// The page: call 13.
use crate::input::{End, Input};
use crate::output::{PutValues, put_hex, put_refusal};
use pages::Stop;
use std::alloc::AllocError;
use std::io::Read;

// An answer's number, and how many items were done.
fn put_page_answer(line: &mut String, answer: Result<u64, Stop>) -> Result<(), AllocError> {
    match answer {
        Ok(done) => {
            line.push('0')?;
            done.put_values(line)
        }
        Err(Stop { refusal, done }) => {
            put_refusal(line, refusal)?;
            done.put_values(line)
        }
    }
}

pub fn fetch_page<R: Read>(input: &mut Input<R>, line: &mut String) -> Result<(), End> {
    let index = input.take_range()?;
    let sequence = input.take_range()?;
    let numbers = input.take_list::<u64>()?;
    let mut out = input.take_output::<u8>()?;
    let mut ends = input.take_output::<u64>()?;
    let answer = pages::fetch_page(
        index.as_slice(),
        sequence.as_slice(),
        numbers.as_slice(),
        out.as_mut_slice(),
        ends.as_mut_slice(),
    );
    put_page_answer(line, answer)?;
    put_hex(line, out.as_slice())?;
    put_hex(line, ends.as_slice())?;
    Ok(())
}
