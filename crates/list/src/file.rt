// Reading the file of a name, which is bytes.
ghost use Rattle.std.specs.Prelude.{◌≡◌, ◌≤◌, IfOk, IfSome, length, take};

use listing::MOST_LISTED;
use std::alloc::Global;
use std::fs::Files;
use std::io::{BufRead, BufReader, Error, Read};
use std::{fs, io, str};

// One byte more than is listed of a file, so that a larger file is known.
const MOST_READ: u64 = MOST_LISTED as u64 + 1;

// The most bytes of a name, and of a part of it between slashes.
const MOST_OF_NAME: usize = 4095;

const MOST_OF_PART: usize = 255;

// The system's numbers of three errors.
const NO_SUCH_FILE: i32 = 2;

const NAME_TOO_LONG: i32 = 36;

const NOT_TEXT: i32 = 84;

pub fn name_too_long() -> Error {
    Error::from_raw_os_error(NAME_TOO_LONG)
}

// The first bytes of a file, MOST_READ of them at most.
fn read_part<R: Read + Drop>(alloc: Global, file: R) -> io::Result<Vec<u8>>
    ensures first { IfOk result (λ v. IfSome (R.remaining file) (λ bytes. v.items ≡ take 16385 bytes)) }
    ensures most { IfOk result (λ v. length v.items ≤ 16385) }
{
    let mut bytes = Vec::new(alloc);
    file.take(MOST_READ).read_to_end(&mut bytes)?;
    bytes.truncate(MOST_READ as usize);
    Ok(bytes)
}

// Whether a directory has a name.
fn has_name<R: Files + AllocGlobal>(rt: &R, directory: &str, name: &[u8]) -> io::Result<bool> {
    let names = BufReader::new(rt.alloc(), rt.open_dir(directory)?)?;
    for found in names.split(rt.alloc(), 0) {
        if found?.as_slice() == name {
            return Ok(true);
        }
    }
    Ok(false)
}

// Whether the first part of a name that is not text stands in its directory.
fn has_first_not_text<R: Files + AllocGlobal>(rt: &R, name: &[u8]) -> io::Result<bool> {
    let mut directory = String::new(rt.alloc());
    for part in name.split(|b| *b == b'/') {
        match str::from_utf8(part) {
            Ok(text) => {
                directory.push_str(text)?;
                directory.push('/')?;
            }
            Err(_) if part.len() > MOST_OF_PART => return Err(name_too_long()),
            Err(_) if directory.is_empty() => return has_name(rt, "./", part),
            Err(_) => return has_name(rt, directory.as_str(), part),
        }
    }
    Ok(false)
}

// Why a file whose name is not text is not read: it is not there, or the name cannot be handed on.
fn why_not_text<R: Files + AllocGlobal>(rt: &R, name: &[u8]) -> Error {
    if name.len() > MOST_OF_NAME {
        return name_too_long();
    }
    match has_first_not_text(rt, name) {
        Ok(true) => Error::from_raw_os_error(NOT_TEXT),
        Ok(false) => Error::from_raw_os_error(NO_SUCH_FILE),
        Err(error) => error,
    }
}

// Reads the first bytes of the file of a name.
pub fn read<R: Files + AllocGlobal>(rt: &R, name: &[u8]) -> io::Result<Vec<u8>>
    ensures { IfOk result (λ v. length v.items ≤ 16385) }
{
    match str::from_utf8(name) {
        Ok(path) => read_part(rt.alloc(), fs::open(rt, path)?),
        Err(_) => Err(why_not_text(rt, name)),
    }
}
