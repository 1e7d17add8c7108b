// Reads calls from standard input, runs them, and writes a line for each.
#![tactic(auto)]

mod identifiers;
mod input;
mod output;
mod packing;
mod page;
mod records;
mod sets;
mod volumes;
mod writing;

use input::{End, Input};
use std::io;
use std::io::{BufReader, BufWriter, Read, Write};

// The most calls of one run.
const MOST_CALLS: u64 = 1_000_000_000;

// Runs the case of a call byte: reads its arguments, makes its call and puts what it answers into the line.
fn run_case<R: Read>(call: u8, input: &mut Input<R>, line: &mut String) -> Result<(), End> {
    match call {
        1 => volumes::check_volume(input, line),
        2 => volumes::decode(input, line),
        3 => packing::pack(input, line),
        4 => packing::unpack(input, line),
        5 => sets::check_set(input, line),
        6 => sets::look_up(input, line),
        7 => records::find_identifier(input, line),
        8 => records::step_on(input, line),
        9 => records::label(input, line),
        10 => volumes::console_check_volume(input, line),
        11 => packing::console_pack(input, line),
        12 => packing::console_unpack(input, line),
        13 => page::fetch_page(input, line),
        14 => writing::write_nucleotides(input, line),
        15 => writing::bases_of_code(input, line),
        23 => identifiers::kind_name(input, line),
        _ => Err(End::Unknown),
    }
}

// Runs the next case; whether there was one.
fn next_case<R: Read, W: Write>(
    input: &mut Input<R>,
    line: &mut String,
    output: &mut W,
) -> Result<bool, End> {
    let Some(call) = input.take_call()? else {
        return Ok(false);
    };
    line.clear();
    run_case(call, input, line)?;
    line.push('\n')?;
    output.write_all(line.as_bytes())?;
    Ok(true)
}

// Runs the cases of a stream.
fn run_cases<R: Read, W: Write>(
    input: &mut Input<R>,
    line: &mut String,
    output: &mut W,
) -> Result<(), End> {
    for _ in 0..MOST_CALLS {
        if !next_case(input, line, output)? {
            break;
        }
    }
    Ok(())
}

// The last line of a run that ends early.
fn put_end<W: Write>(output: &mut W, end: End) -> io::Result<()> {
    match end {
        End::Cut => output.write_all(b"cut\n"),
        End::TooLong => output.write_all(b"too long\n"),
        End::Unknown => output.write_all(b"unknown\n"),
        End::Failed(error) => Err(error),
    }
}

fn main(rt: HostRuntime) -> io::Result<()> {
    let alloc = rt.alloc();
    let mut input = Input::new(alloc, BufReader::new(alloc, rt.stdin())?);
    let mut output = BufWriter::new(alloc, rt.stdout())?;
    let mut line = String::new(alloc);
    if let Err(end) = run_cases(&mut input, &mut line, &mut output) {
        put_end(&mut output, end)?;
    }
    output.flush()
}
