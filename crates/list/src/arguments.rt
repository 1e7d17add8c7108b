// The arguments of the command line, as bytes: a file's name need not be text.
use crate::file;
use std::alloc::{AllocError, Global};
use std::env::{Env, FillError};
use std::io;

// One more than the program takes, so that more are known.
const MOST_ARGUMENTS: usize = 4;

// No name of a file has more bytes.
const MOST_NAMED: usize = 4096;

// The bytes of an argument; an error where they are more than MOST_NAMED.
pub type Argument = io::Result<Vec<u8>>;

// Whether an argument asks for help.
pub fn asks_help(argument: &Argument) -> bool {
    matches!(argument, Ok(name) if name.as_slice() == b"--help".as_slice())
}

// The argument of a number, if there is one.
fn read_one<R: Env>(rt: &R, alloc: Global, number: usize) -> Result<Option<Argument>, AllocError> {
    let mut name = vec![in alloc; 0u8; MOST_NAMED]?;
    match rt.arg(number, name.as_mut_slice()) {
        Ok(n) => {
            name.truncate(n);
            Ok(Some(Ok(name)))
        }
        Err(FillError::TooLong) => Ok(Some(Err(file::name_too_long()))),
        Err(FillError::NotPresent) => Ok(None),
    }
}

// The first arguments behind the program's own name.
pub fn read<R: Env>(rt: &R, alloc: Global) -> Result<Vec<Argument>, AllocError> {
    let mut found = Vec::new(alloc);
    for number in 1..=MOST_ARGUMENTS {
        match read_one(rt, alloc, number)? {
            Some(argument) => found.push(argument)?,
            None => break,
        }
    }
    Ok(found)
}
