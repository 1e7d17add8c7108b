// What is told on standard error.
ghost use Rattle.std.specs.Prelude.{◌≡◌, ◌++◌, OnOk, flat_map};
ghost use Rattle.list.specs.Shown.{is_plain, shown_byte};

use std::alloc::{AllocError, Global};
use std::io;
use std::io::{Error, Write};

// Whether a byte of a name is shown as it is: it is printable, and neither a quote nor a backslash.
fn is_plain(b: u8) -> bool
    ensures { result ≡ is_plain b }
{
    32 <= b && b < 127 && b != b'"' && b != b'\\'
}

// Adds a byte of a name as it is shown: the others are \xNN.
fn put_shown(b: u8, shown: &mut String) -> Result<(), AllocError>
    ensures { OnOk result (shown.new.bytes.items ≡ shown.old.bytes.items ++ shown_byte b) }
{
    if is_plain(b) {
        shown.push(char::from(b))
    } else {
        write!(shown, "\\x{b:02x}")
    }
}

// Adds a name as it is shown, so that no name can forge a line or reach the terminal.
fn show(name: &[u8], shown: &mut String) -> Result<(), AllocError>
    ensures { OnOk result (shown.new.bytes.items ≡ shown.old.bytes.items ++ flat_map shown_byte name.now) }
{
    for b in name {
        put_shown(*b, shown)?;
    }
    Ok(())
}

// Why something failed: the system's words, without the number that stands behind them.
fn reason(alloc: Global, error: Error) -> Result<String, AllocError> {
    let text = format!(in alloc; "{error}")?;
    match text.as_str().split_once(" (os error ") {
        Some((words, _number)) => String::from_str(alloc, words),
        None => Ok(text),
    }
}

// Tells what failed, by its name, and why.
pub fn tell(rt: &HostRuntime, name: &[u8], error: Error) -> io::Result<()> {
    let alloc = rt.alloc();
    let mut line = String::new(alloc);
    line.push_str("list: ")?;
    show(name, &mut line)?;
    line.push_str(": ")?;
    line.push_str(reason(alloc, error)?.as_str())?;
    line.push('\n')?;
    rt.stderr().write_all(line.as_bytes())
}
