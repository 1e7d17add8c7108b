// Sizes and places that a file states: four bytes, big-endian and signed.
ghost use Rattle.std.specs.Prelude.{◌≡◌, ◌<◌};
ghost use Rattle.std.specs.Int.Signed.{non_neg};
ghost use Rattle.laws.specs.Signed.{to_nat};
ghost use Rattle.fields.specs.Number.{big, signed_at};

use super::{Order, read};

// Whether the integer at a place is not negative.
pub fn not_negative_at(file: &[u8], at: usize) -> bool
    ensures { result ≡ non_neg (signed_at big 4 file.now at) }
{
    !read::<i32>(Order::Big, file, at).is_negative()
}

// The size or place that the integer at a place states; 0 for a negative one.
pub fn natural_at(file: &[u8], at: usize) -> usize
    ensures value { result ≡ to_nat (signed_at big 4 file.now at) }
    ensures small { result < 2147483648 }
{
    read::<i32>(Order::Big, file, at).max(0) as usize
}
