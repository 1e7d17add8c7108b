// The packing calls: 3 pack, 4 unpack, 11 console pack, 12 console unpack.
use crate::input::{End, Input};
use crate::output::{put_answer, put_hex};
use packets::PacketPos;
use std::alloc::AllocError;
use std::io::Read;

// Each case reads its arguments, makes its call and puts what it answers into the line.
pub fn pack<R: Read>(input: &mut Input<R>, line: &mut String) -> Result<(), End> {
    let alphabet = input.take_narrow()?;
    let codes = input.take_range()?;
    let place = input.take_number()?;
    let mut buffer = input.take_output::<u32>()?;
    let answer = runs::pack(
        alphabet,
        codes.as_slice(),
        buffer.as_mut_slice(),
        PacketPos(place),
    );
    put_answer(line, answer)?;
    put_hex(line, buffer.as_slice())?;
    Ok(())
}

pub fn unpack<R: Read>(input: &mut Input<R>, line: &mut String) -> Result<(), End> {
    let alphabet = input.take_narrow()?;
    let packets = input.take_list::<u32>()?;
    let mut out = input.take_output::<u8>()?;
    let answer = runs::unpack(alphabet, packets.as_slice(), out.as_mut_slice());
    put_answer(line, answer)?;
    put_hex(line, out.as_slice())?;
    Ok(())
}

// The line of a call of the console: its number and two outputs.
fn put_line(line: &mut String, answer: u32, first: &[u8], second: &[u8]) -> Result<(), AllocError> {
    write!(line, "{answer}")?;
    put_hex(line, first)?;
    put_hex(line, second)
}

pub fn console_pack<R: Read>(input: &mut Input<R>, line: &mut String) -> Result<(), End> {
    let alphabet = input.take_narrow()?;
    let codes = input.take_range()?;
    let mut buffer = input.take_output::<u8>()?;
    let place = input.take_number()?;
    let mut results = input.take_output::<u8>()?;
    let answer = console::gull_pack(
        alphabet,
        codes.as_slice(),
        buffer.as_mut_slice(),
        place,
        results.as_mut_slice(),
    );
    put_line(line, answer, buffer.as_slice(), results.as_slice())?;
    Ok(())
}

pub fn console_unpack<R: Read>(input: &mut Input<R>, line: &mut String) -> Result<(), End> {
    let alphabet = input.take_narrow()?;
    let packets = input.take_range()?;
    let mut out = input.take_output::<u8>()?;
    let mut results = input.take_output::<u8>()?;
    let answer = console::gull_unpack(
        alphabet,
        packets.as_slice(),
        out.as_mut_slice(),
        results.as_mut_slice(),
    );
    put_line(line, answer, out.as_slice(), results.as_slice())?;
    Ok(())
}
