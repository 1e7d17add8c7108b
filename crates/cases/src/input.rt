// The stream of cases: numbers, ranges and outputs, as the protocol has them.
ghost use Rattle.std.specs.Prelude.{◌≤◌, IfOk};

use crate::output::put_byte;
use std::alloc::{AllocError, AllocFailed, Global};
use std::io;
use std::io::{ErrorKind, Read};

// The most bytes of a range, the most packets of a packet range and the most numbers of a list of numbers.
const MOST_BYTES: usize = 16384;

const MOST_PACKETS: usize = 4096;

const MOST_NUMBERS: usize = 2048;

// Why a run ends: the stream ends inside a case, a range is too long, a byte names no call, or a read, a write or an allocation fails.
#[derive(Clone, Copy)]
pub enum End {
    Cut,
    TooLong,
    Unknown,
    Failed(io::Error),
}

impl From<io::Error> for End {
    fn from(error: io::Error) -> End {
        End::Failed(error)
    }
}

impl From<AllocError> for End {
    fn from(error: AllocError) -> End {
        End::Failed(io::Error::from(error))
    }
}

impl<T: Drop> From<AllocFailed<T>> for End {
    fn from(error: AllocFailed<T>) -> End {
        End::Failed(io::Error::from(error))
    }
}

// The rest of a stream. Where a number or a range is not given, the run ends, and nothing more is read.
#[derive(Drop)]
pub struct Input<R> {
    stream: R,
    alloc: Global,
}

impl<R: Read> Input<R> {
    pub fn new(alloc: Global, stream: R) -> Input<R> {
        Input { stream, alloc }
    }

    // The byte of the next call; none at the stream's end.
    pub fn take_call(&mut self) -> Result<Option<u8>, End> {
        match u8::take(self) {
            Ok(call) => Ok(Some(call)),
            Err(End::Cut) => Ok(None),
            Err(end) => Err(end),
        }
    }

    // Fills a buffer with the next bytes.
    fn take_bytes(&mut self, buffer: &mut [u8]) -> Result<(), End> {
        match self.stream.read_exact(buffer) {
            Ok(()) => Ok(()),
            Err(error) if error.kind() == ErrorKind::UnexpectedEof => Err(End::Cut),
            Err(error) => Err(End::Failed(error)),
        }
    }

    // The next bytes, as many as the array has.
    fn take_array<const N: usize>(&mut self) -> Result<[u8; N], End> {
        let mut bytes = [0u8; N];
        self.take_bytes(&mut bytes)?;
        Ok(bytes)
    }

    // The next number of eight bytes.
    pub fn take_number(&mut self) -> Result<u64, End> {
        Ok(u64::from_le_bytes(self.take_array()?))
    }

    // The next number of eight bytes as a 32-bit argument: the largest one where it is larger.
    pub fn take_narrow(&mut self) -> Result<u32, End> {
        Ok(u32::try_from(self.take_number()?).unwrap_or(u32::MAX))
    }

    // The next length, of at most `most` elements.
    fn take_length(&mut self, most: usize) -> Result<usize, End>
        ensures { IfOk result (λ n. n ≤ most) }
    {
        let n = u32::from_le_bytes(self.take_array()?) as usize;
        if n > most {
            return Err(End::TooLong);
        }
        Ok(n)
    }

    // The next range.
    pub fn take_range(&mut self) -> Result<Vec<u8>, End> {
        let n = self.take_length(MOST_BYTES)?;
        let mut range = vec![in self.alloc; 0u8; n]?;
        self.take_bytes(range.as_mut_slice())?;
        Ok(range)
    }

    // The next list of packets or of numbers.
    pub fn take_list<T: Element>(&mut self) -> Result<Vec<T>, End> {
        let n = self.take_length(T::MOST)?;
        let mut list = Vec::with_capacity(self.alloc, n)?;
        for _ in 0..n {
            list.push(T::take(self)?)?;
        }
        Ok(list)
    }

    // The next output to lend: its length, and what fills it.
    pub fn take_output<T: Element>(&mut self) -> Result<Vec<T>, End> {
        let n = self.take_length(T::MOST)?;
        let fill = T::take(self)?;
        Ok(vec![in self.alloc; fill; n]?)
    }
}

// What a range, a list or an output consists of: bytes, packets or numbers.
pub trait Element: Copy {
    // The most elements of a range or list.
    const MOST: usize;

    // The next element of a stream.
    fn take<R: Read>(input: &mut Input<R>) -> Result<Self, End>;

    // Adds the element in hex, two digits for each of its bytes, to a line.
    fn put_digits(self, line: &mut String) -> Result<(), AllocError>;
}

impl Element for u8 {
    const MOST: usize = MOST_BYTES;

    fn take<R: Read>(input: &mut Input<R>) -> Result<u8, End> {
        Ok(u8::from_le_bytes(input.take_array()?))
    }

    fn put_digits(self, line: &mut String) -> Result<(), AllocError> {
        put_byte(line, self)
    }
}

impl Element for u32 {
    const MOST: usize = MOST_PACKETS;

    fn take<R: Read>(input: &mut Input<R>) -> Result<u32, End> {
        Ok(u32::from_le_bytes(input.take_array()?))
    }

    fn put_digits(self, line: &mut String) -> Result<(), AllocError> {
        write!(line, "{self:08x}")
    }
}

impl Element for u64 {
    const MOST: usize = MOST_NUMBERS;

    fn take<R: Read>(input: &mut Input<R>) -> Result<u64, End> {
        input.take_number()
    }

    fn put_digits(self, line: &mut String) -> Result<(), AllocError> {
        write!(line, "{self:016x}")
    }
}
