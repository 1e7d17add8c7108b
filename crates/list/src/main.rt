// Writes the listing of a volume to standard output. The arguments name its index, its sequence file and its header file.
// Where a file cannot be read a message goes to standard error and nothing to standard output.
#![tactic(auto)]

mod arguments;
mod file;
mod message;

ghost use Rattle.std.specs.Prelude.{◌≤◌, IfOk, IfSome, length};

use arguments::{Argument, asks_help};
use listing::LISTING_ROOM;
use std::io;

const USAGE: &str = "usage: list INDEX SEQUENCE HEADER
Lists a volume by its three files: type, sequences, residues and longest,
then the number and the length of each sequence.
";

// The bytes of the file that an argument names. Where they cannot be read it tells why.
fn load(rt: &HostRuntime, argument: &Argument) -> io::Result<Option<Vec<u8>>>
    ensures { IfOk result (λ loaded. IfSome loaded (λ v. length v.items ≤ 16385)) }
{
    let (name, read) = match argument {
        Ok(name) => (name.as_slice(), file::read(rt, name.as_slice())),
        Err(error) => (b"argument".as_slice(), Err(*error)),
    };
    match read {
        Ok(bytes) => Ok(Some(bytes)),
        Err(error) => {
            message::tell(rt, name, error)?;
            Ok(None)
        }
    }
}

fn put_listing(rt: &HostRuntime, index: &[u8], sequence: &[u8], header: &[u8]) -> io::Result<()> {
    let mut out = [0u8; LISTING_ROOM];
    let n = listing::write_listing(index, sequence, header, &mut out);
    match rt.write_all(&out[..n]) {
        Ok(()) => Ok(()),
        Err(error) => message::tell(rt, b"standard output", error),
    }
}

// Lists the volume of the three files, if all of them can be read.
fn list(
    rt: &HostRuntime,
    index: &Argument,
    sequence: &Argument,
    header: &Argument,
) -> io::Result<()> {
    match (load(rt, index)?, load(rt, sequence)?, load(rt, header)?) {
        (Some(index), Some(sequence), Some(header)) => put_listing(
            rt,
            index.as_slice(),
            sequence.as_slice(),
            header.as_slice(),
        ),
        _ => Ok(()),
    }
}

fn main(rt: HostRuntime) -> io::Result<()> {
    let found = arguments::read(&rt, rt.alloc())?;
    match found.as_slice() {
        [only] if asks_help(only) => rt.print(USAGE),
        [index, sequence, header] => list(&rt, index, sequence, header),
        _ => rt.eprint(USAGE),
    }
}
