// Writing the run of a sequence as little-endian bytes.
ghost use Rattle.std.specs.Prelude.{◌≡◌, true, ◌&&◌, ◌+◌, ◌*◌, ◌-◌, ◌/◌, ◌≤◌, ◌<◌, min, ltb, length, drop, get_or};
ghost use Rattle.laws.specs.Digits.{all_below};
ghost use Rattle.laws.specs.Writing.{written_at};
ghost use Rattle.residues.specs.Alphabets.{valid_codes};
ghost use Rattle.packets.specs.Positions.{byte_of};
ghost use Rattle.packets.specs.Packing.{plain, two_bit_part, five_bit_part, run};
ghost use Rattle.packets.specs.Bytes.{bytes_of};
ghost use Rattle.byte_runs.specs.Packed.{fives, twos, SixCodes, six_packet, FourBases, moved, plain_parts, RunBegun};

use crate::bytes::{four_at, put_packet, put_packets, start_of};
use packets::PacketPos;
use std::array;

// How many packets are written, and how many codes they take.
#[derive(Clone, Copy)]
struct Written {
    packets: usize,
    codes: usize,
}

// The number of two codes from a place on, the first lowest.
fn two_at(codes: &[u8], at: usize) -> u32
    requires { at + 2 ≤ length codes.now }
    ensures { result ≡ get_or codes.now at 0 + get_or codes.now (at + 1) 0 * 256 }
{
    fields::word(codes[at], codes[at + 1], 0, 0)
}

// The 5-bit packet of six codes, of which four and two are the bytes of a number.
fn six_of(four: u32, two: u32) -> u32
    requires { SixCodes four two }
    ensures { result ≡ six_packet four two }
{
    0x40000000
        + four % 256 * 33554432
        + four / 256 % 256 * 1048576
        + four / 65536 % 256 * 32768
        + four / 16777216 * 1024
        + two % 256 * 32
        + two / 256
}

// The 5-bit packet of the next six codes. They are read four and two at once, so that the compiler makes several packets together.
fn five_packet(next: &[u8]) -> u32
    requires { (6 ≤ length next.now) × (all_below 28 next.now ≡ true) }
    ensures { result ≡ five_bit_part next.now }
{
    six_of(four_at(next, 0), two_at(next, 4))
}

// The 5-bit packets of the first ninety-six codes, made with no store to the output in between.
fn sixteen_fives(codes: &[u8]) -> [u32; 16]
    requires { (96 ≤ length codes.now) × (all_below 28 codes.now ≡ true) }
    ensures { result ≡ fives codes.now 16 }
{
    array::from_fn(|i| five_packet(&codes[6 * i..]))
}

// Writes a few 5-bit packets at the start of the output, one by one.
fn write_few(codes: &[u8], count: usize, out: &mut [u8])
    requires { (6 * count ≤ length codes.now) × (all_below 28 codes.now ≡ true) × (4 * count ≤ length out.old) }
    ensures { out.new ≡ written_at 0 (bytes_of (fives codes.now count)) out.old }
{
    for i in 0..count {
        put_packet(five_packet(&codes[6 * i..]), out, PacketPos(i as u64));
    }
}

// Writes 5-bit packets at the start of the output, sixteen at once. The last sixteen end with the last packet, and write some of those before
// again.
fn write_fives(codes: &[u8], count: usize, out: &mut [u8])
    requires { (6 * count ≤ length codes.now) × (all_below 28 codes.now ≡ true) × (4 * count ≤ length out.old) }
    ensures { out.new ≡ written_at 0 (bytes_of (fives codes.now count)) out.old }
{
    if count < 16 {
        write_few(codes, count, out);
        return;
    }
    for block in 0..count.div_ceil(16) {
        let from = (16 * block).min(count - 16);
        let packets = sixteen_fives(&codes[6 * from..]);
        put_packets(&packets, &mut out[start_of(PacketPos(from as u64))..]);
    }
}

// Writes an amino run as bytes at the start of the output: six codes to a packet, and the last packet by itself.
fn write_amino_run(codes: &[u8], out: &mut [u8]) -> usize
    requires { (valid_codes 3 codes.now ≡ true) × (length (run 3 codes.now) ≤ length out.old / 4) }
    ensures count { result ≡ length (run 3 codes.now) }
    ensures bytes { out.new ≡ written_at 0 (bytes_of (run 3 codes.now)) out.old }
{
    let whole = packets::sixes_of(codes.len()) - 1;
    write_fives(codes, whole, out);
    let next = packets::encode(3, &codes[6 * whole..], codes.len() - 6 * whole);
    put_packet(next.packet, out, PacketPos(whole as u64));
    whole + 1
}

// Four codes below 4, each in its byte, as one number of four digits, by shifts, which the compiler makes of several numbers together.
fn four_shifted(codes: u32) -> u32
    requires { FourBases codes }
    ensures value { result ≡ moved codes }
    ensures small { result < 256 }
{
    let pairs = (codes * 4 | codes / 256) & 0x000f000f;
    pairs % 65536 * 16 + pairs / 65536
}

// The 2-bit packet of the next fifteen codes.
fn two_packet(next: &[u8]) -> u32
    requires { plain 15 next.now ≡ true }
    ensures { result ≡ two_bit_part next.now }
{
    four_shifted(four_at(next, 0)) * 4194304
        + four_shifted(four_at(next, 4)) * 16384
        + four_shifted(four_at(next, 8)) * 64
        + four_shifted(four_at(next, 11)) % 64
}

// Whether the first two hundred and forty codes are below 4 and more follow.
fn plain_block(codes: &[u8]) -> bool
    ensures { result ≡ (ltb 240 (length codes.now) && plain 240 codes.now) }
{
    if codes.len() <= 240 {
        return false;
    }
    let mut any: u8 = 0;
    for code in &codes[..240] {
        any |= *code;
    }
    any < 4
}

// The 2-bit packets of the first two hundred and forty codes.
fn sixteen_twos(codes: &[u8]) -> [u32; 16]
    requires { plain 240 codes.now ≡ true }
    ensures { result ≡ twos codes.now 16 }
{
    array::from_fn(|i| two_packet(&codes[15 * i..]))
}

// Writes 2-bit packets at the start of the output, sixteen at once, as long as there are so many and more codes follow.
fn write_twos(codes: &[u8], out: &mut [u8]) -> usize
    requires { (0 < length codes.now) × (length codes.now ≤ 15 * (length out.old / 4)) }
    ensures plain { (15 * result < length codes.now) × (plain_parts codes.now result ≡ true) }
    ensures bytes { out.new ≡ written_at 0 (bytes_of (twos codes.now result)) out.old }
{
    let mut n: usize = 0;
    while plain_block(&codes[15 * n..]) {
        let packets = sixteen_twos(&codes[15 * n..]);
        put_packets(&packets, &mut out[start_of(PacketPos(n as u64))..]);
        n += 16;
    }
    n
}

// Writes the packets of a nucleic run at the start of the output as long as more than fifteen codes are left. Blocks of sixteen 2-bit packets
// are tried at first and after sixteen of them in a row.
fn write_inner(codes: &[u8], out: &mut [u8]) -> Written
    requires { (valid_codes 1 codes.now ≡ true) × (length (run 1 codes.now) ≤ length out.old / 4) }
    ensures { RunBegun codes.now out.old result.packets result.codes out.new }
{
    let mut at: usize = 0;
    let mut count: usize = 0;
    let mut row: usize = 16;
    while codes.len() - at > 15 {
        let next = &codes[at..];
        if row == 16 {
            let n = write_twos(next, &mut out[start_of(PacketPos(count as u64))..]);
            at += 15 * n;
            count += n;
            row = 0;
            continue;
        }
        let Some(packet) = packets::next_two_bit(next) else {
            put_packet(five_packet(next), out, PacketPos(count as u64));
            at += 6;
            count += 1;
            row = 0;
            continue;
        };
        put_packet(packet, out, PacketPos(count as u64));
        at += 15;
        row += 1;
        count += 1;
    }
    Written {
        packets: count,
        codes: at,
    }
}

// Writes a nucleic run as bytes at the start of the output; both nucleic alphabets pack alike.
fn write_nucleic_run(codes: &[u8], out: &mut [u8]) -> usize
    requires { (valid_codes 1 codes.now ≡ true) × (length (run 1 codes.now) ≤ length out.old / 4) }
    ensures count { result ≡ length (run 1 codes.now) }
    ensures bytes { out.new ≡ written_at 0 (bytes_of (run 1 codes.now)) out.old }
{
    let Written {
        packets: mut count,
        codes: mut at,
    } = write_inner(codes, out);
    loop {
        let left = codes.len() - at;
        let next = packets::encode(1, &codes[at..], left);
        let size = next.size;
        put_packet(next.packet, out, PacketPos(count as u64));
        count += 1;
        if left <= size {
            return count;
        }
        at += size;
    }
}

// Writes a run as bytes from a place on.
pub(crate) fn write_run(alphabet: u32, codes: &[u8], out: &mut [u8], place: PacketPos) -> usize
    requires { (valid_codes alphabet codes.now ≡ true) × (place.0 + length (run alphabet codes.now) ≤ length out.old / 4) }
    ensures count { result ≡ length (run alphabet codes.now) }
    ensures bytes { out.new ≡ written_at (byte_of 0 place.0) (bytes_of (run alphabet codes.now)) out.old }
{
    let behind = &mut out[start_of(place)..];
    if residues::is_amino(alphabet) {
        write_amino_run(codes, behind)
    } else {
        write_nucleic_run(codes, behind)
    }
}
