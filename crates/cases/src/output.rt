// The line of a case: numbers in decimal, outputs in hex.
use crate::input::Element;
use answers::Refusal;
use elements::Span;
use runs::RunSize;
use std::alloc::AllocError;

// The number of a refusal.
pub fn put_refusal(line: &mut String, r: Refusal) -> Result<(), AllocError> {
    write!(line, "{}", u32::from(r))
}

// The hex digit of a number, by its remainder.
fn digit(n: u8) -> char {
    let d = n % 16;
    if d < 10 {
        return char::from(b'0' + d);
    }
    char::from(b'a' + (d - 10))
}

// A byte in hex. Digit by digit it is several times as fast as by a format, and most of a line is bytes.
pub fn put_byte(line: &mut String, b: u8) -> Result<(), AllocError> {
    line.push(digit(b / 16))?;
    line.push(digit(b))
}

// Bytes, packets or numbers in hex, two digits for each of their bytes, after a space; `-` where there are none.
pub fn put_hex<T: Element>(line: &mut String, items: &[T]) -> Result<(), AllocError> {
    if items.is_empty() {
        return line.push_str(" -");
    }
    line.push(' ')?;
    for item in items {
        item.put_digits(line)?;
    }
    Ok(())
}

// What puts its values into a line, each after a space.
pub trait PutValues {
    fn put_values(&self, line: &mut String) -> Result<(), AllocError>;
}

// A number, in decimal.
impl PutValues for u32 {
    fn put_values(&self, line: &mut String) -> Result<(), AllocError> {
        write!(line, " {self}")
    }
}

impl PutValues for u64 {
    fn put_values(&self, line: &mut String) -> Result<(), AllocError> {
        write!(line, " {self}")
    }
}

impl PutValues for usize {
    fn put_values(&self, line: &mut String) -> Result<(), AllocError> {
        write!(line, " {self}")
    }
}

impl PutValues for i64 {
    fn put_values(&self, line: &mut String) -> Result<(), AllocError> {
        write!(line, " {self}")
    }
}

// A text, by its start and length.
impl PutValues for Span {
    fn put_values(&self, line: &mut String) -> Result<(), AllocError> {
        self.start.put_values(line)?;
        self.len.put_values(line)
    }
}

// What may be left out: `-` where it is.
impl<T: PutValues> PutValues for Option<T> {
    fn put_values(&self, line: &mut String) -> Result<(), AllocError> {
        match self {
            Some(value) => value.put_values(line),
            None => line.push_str(" -"),
        }
    }
}

// A run's packets, and its residues.
impl PutValues for RunSize {
    fn put_values(&self, line: &mut String) -> Result<(), AllocError> {
        self.packets.put_values(line)?;
        self.residues.put_values(line)
    }
}

// An answer: 0 and its values, or the number of its refusal.
pub fn put_answer<T: PutValues + Drop>(
    line: &mut String,
    answer: Result<T, Refusal>,
) -> Result<(), AllocError> {
    match answer {
        Ok(values) => {
            line.push('0')?;
            values.put_values(line)
        }
        Err(r) => put_refusal(line, r),
    }
}
