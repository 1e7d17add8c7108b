// One packet from codes: the packing rule's next packet, and the test of all codes of a sequence.
ghost use Rattle.std.specs.Prelude.{◌≡◌, true, ◌+◌, ◌*◌, ◌/◌, ◌^◌, ◌%◌, ◌≤◌, ◌<◌, leb, length, get_or};
ghost use Rattle.residues.specs.Alphabets.{valid_codes};
ghost use Rattle.packets.specs.Packing.{sixes, four_from, filled, plain, is_two_bit, size_of, two_bit_part, next_two_bit, five_bit_part, end_bit, packet_of};

use crate::Next;

// Whether every code of a sequence is valid in its alphabet.
pub fn valid_codes(alphabet: u32, codes: &[u8]) -> bool
    ensures { result ≡ valid_codes alphabet codes.now }
{
    residues::largest_code(codes) < residues::code_limit(alphabet)
}

// How many packets take all residues where each takes six.
pub fn sixes_of(left: usize) -> usize
    ensures { result ≡ sixes left }
{
    left.div_ceil(6).max(1)
}

// Four codes as the bytes of a number, the first in the lowest.
fn four_at(next: &[u8], at: usize) -> u64
    requires { at + 4 ≤ length next.now }
    ensures value { result ≡ four_from next.now at }
    ensures small { result < 2 ^ 32 }
{
    u64::from(fields::word(next[at], next[at + 1], next[at + 2], next[at + 3]))
}

// Four codes below 4, each in its byte, as one number of four digits: the product moves each to its digit.
fn four_bases(codes: u64) -> u64
    requires { codes < 2 ^ 32 }
    ensures value { result ≡ codes * 0x40100401 / 16777216 % 256 }
    ensures small { result < 256 }
{
    codes * 0x40100401 / 16777216 % 256
}

// Whether fifteen codes below 4 come next: no byte of four numbers of four codes, of which two share one, has a bit above its lowest two.
fn plain_next(next: &[u8]) -> bool
    ensures { result ≡ plain 15 next.now }
{
    if next.len() < 15 {
        return false;
    }
    let first = four_at(next, 0) & 0xfcfcfcfc | four_at(next, 4) & 0xfcfcfcfc;
    let last = four_at(next, 8) & 0xfcfcfcfc | four_at(next, 11) & 0xfcfcfcfc;
    first | last == 0
}

// Whether the next packet holds 2-bit codes.
#[tactic(auto, unfolding(crate::specs::Packing::is_two_bit))]
fn is_two_bit(alphabet: u32, next: &[u8]) -> bool
    ensures { result ≡ is_two_bit alphabet next.now }
{
    !residues::is_amino(alphabet) && plain_next(next)
}

// The fifteen 2-bit codes of the next packet.
#[tactic(auto, using(crate::proofs::Packing::of_plain))]
fn two_bit(next: &[u8]) -> u64
    requires { plain 15 next.now ≡ true }
    ensures value { result ≡ two_bit_part next.now }
    ensures small { result < 2 ^ 30 }
{
    four_bases(four_at(next, 0)) * 4194304
        + four_bases(four_at(next, 4)) * 16384
        + four_bases(four_at(next, 8)) * 64
        + four_bases(four_at(next, 11)) % 64
}

// The 2-bit packet of the next fifteen codes, with bit 31 clear, where they are all below 4.
#[tactic(auto, unfolding(crate::specs::Packing::next_two_bit))]
pub fn next_two_bit(next: &[u8]) -> Option<u32>
    ensures { result ≡ next_two_bit next.now }
{
    if plain_next(next) {
        Some(two_bit(next) as u32)
    } else {
        None
    }
}

// The code at a place; 31 past the end.
fn code_or_fill(next: &[u8], k: usize) -> u8
    ensures { result ≡ get_or next.now k 31 }
{
    next.get(k).copied().unwrap_or(31)
}

// The next six codes; 31 past the end. One by one they are faster than a copy of so many as are left, which is a call.
#[tactic(auto, using(crate::proofs::Filled::six_whole, crate::proofs::Filled::six_filled))]
fn six_codes(next: &[u8]) -> [u8; 6]
    ensures { result ≡ filled 6 next.now }
{
    if next.len() < 6 {
        [
            code_or_fill(next, 0),
            code_or_fill(next, 1),
            code_or_fill(next, 2),
            code_or_fill(next, 3),
            code_or_fill(next, 4),
            code_or_fill(next, 5),
        ]
    } else {
        [next[0], next[1], next[2], next[3], next[4], next[5]]
    }
}

// Bit 30 and the six 5-bit codes of the next packet.
#[tactic(auto, using(crate::proofs::Filled::six_sum))]
fn five_bit(next: &[u8]) -> u64
    ensures value { result ≡ five_bit_part next.now }
    ensures small { result < 2 ^ 34 }
{
    let codes = six_codes(next);
    0x40000000
        + u64::from(codes[0]) * 33554432
        + u64::from(codes[1]) * 1048576
        + u64::from(codes[2]) * 32768
        + u64::from(codes[3]) * 1024
        + u64::from(codes[4]) * 32
        + u64::from(codes[5])
}

// Bit 31 where a packet takes all residues that are left.
fn end_bit(left: usize, taken: usize) -> u64
    ensures value { result ≡ end_bit (leb left taken) }
    ensures small { result ≤ 2 ^ 31 }
{
    if left <= taken { 0x80000000 } else { 0 }
}

// The next packet as a 32-bit number, from the next codes and the count of residues that are left. Fifteen codes are enough.
#[tactic(auto, using(crate::proofs::Packing::next_packet))]
pub fn encode(alphabet: u32, next: &[u8], left: usize) -> Next
    ensures packet { result.packet ≡ packet_of alphabet next.now left % 2 ^ 32 }
    ensures size { result.size ≡ size_of alphabet next.now left }
{
    if is_two_bit(alphabet, next) {
        let whole = end_bit(left, 15) + two_bit(next);
        Next {
            packet: (whole % 4294967296) as u32,
            size: 15,
        }
    } else {
        let whole = end_bit(left, 6) + five_bit(next);
        Next {
            packet: (whole % 4294967296) as u32,
            size: left.min(6),
        }
    }
}
