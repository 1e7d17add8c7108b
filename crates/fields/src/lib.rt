// Integers at a place of a byte slice, of 4 or 8 bytes, big- or little-endian, unsigned or in two's complement, and numbers written
// in either order. Every public function is total: a byte past the end reads as 0, and a number that does not fit is not written.
#![tactic(auto)]

mod sizes;

ghost use Rattle.std.specs.Prelude.{◌≡◌, [], ◌∷◌, ◌+◌, ◌*◌, ◌≤◌, ◌<◌, leb, length, get_or, List, ℕ};
ghost use Rattle.fields.specs.Number.{big, little, number, bytes_at, unsigned_at, signed, signed_at};
ghost use Rattle.laws.specs.Writing.{written_at};
ghost use Rattle.fields.specs.Written.{little_bytes, bytes_put, number_put};

pub use sizes::{natural_at, not_negative_at};

// The byte orders.
#[derive(Clone, Copy, Debug, PartialEq, Eq)]
pub enum Order {
    Big,
    Little,
}

// The byte at a place.
pub fn byte(s: &[u8], at: usize) -> u8
    ensures { result ≡ get_or s.now at 0 }
{
    s.get(at).copied().unwrap_or(0)
}

// The byte k places past a place.
fn byte_past(s: &[u8], at: usize, k: usize) -> u8
    ensures { result ≡ get_or s.now (at + k) 0 }
{
    if s.len() <= at {
        return 0;
    }
    if s.len() - at <= k {
        return 0;
    }
    s[at + k]
}

// Whether w bytes from a place on lie in a slice of so many.
fn fits(len: usize, at: usize, w: usize) -> bool
    ensures { result ≡ leb (at + w) len }
{
    w <= len && at <= len - w
}

// Four bytes as one number, the first the lowest.
pub fn word(a: u8, b: u8, c: u8, d: u8) -> u32
    ensures value { result ≡ a + b * 256 + c * 65536 + d * 16777216 }
    ensures bytes { little_bytes 4 result ≡ a ∷ b ∷ c ∷ d ∷ [] }
{
    u32::from_le_bytes([a, b, c, d])
}

// The four bytes from place at + k on as one number, where all lie in the slice: one load.
fn inside(s: &[u8], at: usize, k: usize) -> u32
    requires { at + k + 4 ≤ length s.now }
    ensures { little_bytes 4 result ≡ bytes_at 4 s.now at k }
{
    word(s[at + k], s[at + (k + 1)], s[at + (k + 2)], s[at + (k + 3)])
}

// The four bytes from place at + k on as one number.
fn four(s: &[u8], at: usize, k: usize) -> u32
    requires { k ≤ 4 }
    ensures { little_bytes 4 result ≡ bytes_at 4 s.now at k }
{
    if fits(s.len(), at, k + 4) {
        return inside(s, at, k);
    }
    word(
        byte_past(s, at, k),
        byte_past(s, at, k + 1),
        byte_past(s, at, k + 2),
        byte_past(s, at, k + 3),
    )
}

// The number of a word's bytes, in an order.
pub fn number_by(order: Order, bytes: u32) -> u32
    ensures { result ≡ number order (little_bytes 4 bytes) }
{
    match order {
        Order::Big => bytes.swap_bytes(),
        Order::Little => bytes,
    }
}

// The number of eight bytes, by the numbers of its halves.
fn joined(high: u32, low: u32) -> u64
    ensures { result ≡ high * 4294967296 + low }
{
    u64::from(high) * 4294967296 + u64::from(low)
}

// An integer of four or eight bytes, as a file holds it: unsigned, or in two's complement.
pub trait Integer: Copy {
    ghost use Rattle.fields.specs.declared.Order.{Order};

    // The integer that stands at a place of a file, in a byte order.
    ghost at: { Order → List ℕ → ℕ → Self };

    // Reads the integer at a place.
    fn read(order: Order, file: &[u8], place: usize) -> Self
        ensures { result ≡ at order file.now place };
}

impl Integer for u32 {
    ghost at = { λ order file place. unsigned_at order 4 file place };

    fn read(order: Order, file: &[u8], place: usize) -> u32 {
        number_by(order, four(file, place, 0))
    }
}

impl Integer for u64 {
    ghost at = { λ order file place. unsigned_at order 8 file place };

    fn read(order: Order, file: &[u8], place: usize) -> u64 {
        let first = number_by(order, four(file, place, 0));
        let last = number_by(order, four(file, place, 4));
        match order {
            Order::Big => joined(first, last),
            Order::Little => joined(last, first),
        }
    }
}

impl Integer for i32 {
    ghost at = { λ order file place. signed_at order 4 file place };

    fn read(order: Order, file: &[u8], place: usize) -> i32 {
        u32::read(order, file, place).cast_signed()
    }
}

impl Integer for i64 {
    ghost at = { λ order file place. signed_at order 8 file place };

    fn read(order: Order, file: &[u8], place: usize) -> i64 {
        u64::read(order, file, place).cast_signed()
    }
}

// The integer at a place of a file, in a byte order.
pub fn read<T: Integer>(order: Order, file: &[u8], place: usize) -> T
    ensures { result ≡ T.at order file.now place }
{
    T::read(order, file, place)
}

// Writes bytes at a place; nothing where they do not fit.
fn put_bytes(bytes: &[u8], out: &mut [u8], at: usize)
    ensures { out.new ≡ bytes_put at bytes.now out.old }
{
    if fits(out.len(), at, bytes.len()) {
        out[at..at + bytes.len()].copy_from_slice(bytes);
    }
}

// An unsigned number of four or eight bytes, which can be written.
pub trait Unsigned: Integer {
    ghost use Rattle.fields.specs.declared.Order.{Order};

    // The range with the number's bytes at a place, in a byte order; as it was where they do not fit.
    ghost put_at: { Order → ℕ → Self → List ℕ → List ℕ };

    // Writes the number's bytes at a place; nothing where they do not fit.
    fn put(self, order: Order, out: &mut [u8], place: usize)
        ensures { out.new ≡ put_at order place self out.old };
}

impl Unsigned for u32 {
    ghost put_at = { λ order place n range. number_put order 4 place n range };

    fn put(self, order: Order, out: &mut [u8], place: usize) {
        let four = match order {
            Order::Big => self.to_be_bytes(),
            Order::Little => self.to_le_bytes(),
        };
        put_bytes(&four, out, place);
    }
}

impl Unsigned for u64 {
    ghost put_at = { λ order place n range. number_put order 8 place n range };

    fn put(self, order: Order, out: &mut [u8], place: usize) {
        let eight = match order {
            Order::Big => self.to_be_bytes(),
            Order::Little => self.to_le_bytes(),
        };
        put_bytes(&eight, out, place);
    }
}
