// Writing the residues of a well-formed run that is little-endian bytes: sixteen packets at once, and then packet by packet. A block of packets
// is taken apart first, with no store to the output in between, so that the compiler takes several packets apart together.
ghost use Rattle.std.specs.Prelude.{◌≡◌, true, false, cond, ◌+◌, ◌*◌, ◌-◌, ◌/◌, ◌≤◌, ◌<◌, length, take, drop, get_or};
ghost use Rattle.laws.specs.Digits.{digits};
ghost use Rattle.laws.specs.Writing.{written_at, Begun};
ghost use Rattle.fields.specs.Written.{little_bytes};
ghost use Rattle.residues.specs.Alphabets.{is_amino};
ghost use Rattle.packets.specs.Runs.{codes_in, well_formed, unpacked};
ghost use Rattle.packets.specs.Bytes.{packets_of};
ghost use Rattle.packets.specs.Decoded.{codes_from};
ghost use Rattle.byte_runs.specs.Blocks.{AllOf, FrontOfFour, bytes_of_two, margin, spare};

use crate::bytes::{packet_at, put_packets, start_of, store};
use crate::reading::five_bit_packets;
use fields::Order;
use packets::PacketPos;
use std::array;

// The packets of a block.
fn sixteen_packets(block: &[u8]) -> [u32; 16]
    requires { 64 ≤ length block.now }
    ensures { result ≡ take 16 (packets_of block.now) }
{
    array::from_fn(|i| packet_at(block, PacketPos(i as u64)))
}

// The first four 5-bit codes of a packet, as the bytes of a number.
fn first_four(packet: u32) -> u32
    ensures { little_bytes 4 result ≡ digits 5 4 (packet / 1024) }
{
    packet / 33554432 % 32
        + packet / 1048576 % 32 * 256
        + packet / 32768 % 32 * 65536
        + packet / 1024 % 32 * 16777216
}

// The last two.
fn last_two(packet: u32) -> u32
    ensures { little_bytes 2 result ≡ digits 5 2 packet }
{
    packet / 32 % 32 + packet % 32 * 256
}

// The four 2-bit codes of eight bits, as the bytes of a number: two pairs, each in its half, are parted at once.
fn four_bases(bits: u32) -> u32
    requires { bits < 256 }
    ensures { little_bytes 4 result ≡ digits 2 4 bits }
{
    let pairs = bits / 16 + bits % 16 * 65536;
    (pairs / 4 & 0x00030003) + (pairs & 0x00030003) * 256
}

// One of two numbers. Both are there already, so that the compiler needs no branch.
fn pick(first: bool, a: u32, b: u32) -> u32
    ensures { result ≡ cond first a b }
{
    if first { a } else { b }
}

// The six 5-bit codes of a packet: the first four as the bytes of a number, and the last two.
fn six_codes(packet: u32) -> [u32; 2]
    ensures { bytes_of_two result ≡ digits 5 6 packet }
{
    [first_four(packet), last_two(packet)]
}

// The fifteen 2-bit codes of a packet as the bytes of four numbers, and one byte more.
fn fifteen_codes(packet: u32) -> [u32; 4]
    ensures { FrontOfFour (digits 2 15 packet) result }
{
    [
        four_bases(packet / 4194304 % 256),
        four_bases(packet / 16384 % 256),
        four_bases(packet / 64 % 256),
        four_bases(packet % 64 * 4),
    ]
}

// The codes of a packet of either kind as the first bytes of four numbers. It is taken apart in both ways, so that no branch can be guessed
// wrong.
fn any_codes(packet: u32) -> [u32; 4]
    ensures { FrontOfFour (codes_in packet) result }
{
    let five = packet / 0x40000000 % 2 == 1;
    let [four, two] = six_codes(packet);
    let [first, second, third, fourth] = fifteen_codes(packet);
    [
        pick(five, four, first),
        pick(five, two, second),
        third,
        fourth,
    ]
}

// Writes six codes from a place on, the first four and the last two each as the bytes of a number.
fn put_six(codes: [u32; 2], out: &mut [u8], at: usize)
    requires { at + 6 ≤ length out.old }
    ensures { out.new ≡ written_at at (bytes_of_two codes) out.old }
{
    store(codes[0], 4, out, at);
    store(codes[1], 2, out, at + 4);
}

// Writes the codes of sixteen packets of 5-bit codes from a place on. Fours and twos are made from the bytes, each in an array of its own, so
// that the compiler takes four packets apart together; an array of both, made of packets, took half as long again.
fn put_sixes(block: &[u8], out: &mut [u8], at: usize)
    requires in_bounds { (64 ≤ length block.now) × (at + 96 ≤ length out.old) }
    requires all_of { AllOf true (packets_of block.now) 16 }
    ensures { out.new ≡ written_at at (codes_from (packets_of block.now) 0 16) out.old }
{
    let mut fours = [0; 16];
    let mut twos = [0; 16];
    for i in 0..16 {
        let packet = packet_at(block, PacketPos(i as u64));
        fours[i] = first_four(packet);
        twos[i] = last_two(packet);
    }
    for j in 0..16 {
        put_six([fours[j], twos[j]], out, at + 6 * j);
    }
}

// Writes the codes of sixteen packets of 2-bit codes from a place on, and one byte more.
fn put_bases(packets: &[u32; 16], out: &mut [u8], at: usize)
    requires in_bounds { at + 241 ≤ length out.old }
    requires all_of { AllOf false packets.now 16 }
    ensures { Begun at (codes_from packets.now 0 16) (at + 241) out.old out.new }
{
    let codes: [[u32; 4]; 16] = array::from_fn(
        |i|
            requires { i < 16 }
            ensures { FrontOfFour (digits 2 15 (get_or packets.entry.now i 0)) result }
        { fifteen_codes(packets[i]) },
    );
    for j in 0..16 {
        put_packets(&codes[j], &mut out[at + 15 * j..]);
    }
}

// Writes the codes of sixteen packets of both kinds from a place on, and up to ten bytes more; the place behind the codes.
fn put_mixed(packets: &[u32; 16], out: &mut [u8], place: usize) -> usize
    requires { place + length (codes_from packets.now 0 16) + 10 ≤ length out.old }
    ensures behind { result ≡ place + length (codes_from packets.now 0 16) }
    ensures codes { Begun place (codes_from packets.now 0 16) (result + 10) out.old out.new }
{
    let codes: [[u32; 4]; 16] = array::from_fn(
        |i|
            requires { i < 16 }
            ensures { FrontOfFour (codes_in (get_or packets.entry.now i 0)) result }
        { any_codes(packets[i]) },
    );
    let mut at = place;
    for j in 0..16 {
        put_packets(&codes[j], &mut out[at..]);
        at += packets::code_count(packets[j]);
    }
    at
}

// Writes the codes of sixteen packets of a run from a place on, and for nucleic up to ten bytes more; the place behind the codes.
fn put_block(alphabet: u32, block: &[u8], out: &mut [u8], place: usize) -> usize
    requires in_bounds { (64 ≤ length block.now) × (place + length (codes_from (packets_of block.now) 0 16) + margin alphabet ≤ length out.old) }
    requires all_of { is_amino alphabet ≡ true → AllOf true (packets_of block.now) 16 }
    ensures behind { result ≡ place + length (codes_from (packets_of block.now) 0 16) }
    ensures codes { Begun place (codes_from (packets_of block.now) 0 16) (result + margin alphabet) out.old out.new }
{
    if residues::is_amino(alphabet) {
        put_sixes(block, out, place);
        return place + 96;
    }
    let packets = sixteen_packets(block);
    if five_bit_packets(Order::Little, block, 16) == 0 {
        put_bases(&packets, out, place);
        return place + 240;
    }
    put_mixed(&packets, out, place)
}

// Writes the codes of one packet from a place on; the place behind them.
fn put_one(packet: u32, out: &mut [u8], at: usize) -> usize
    requires { at + length (codes_in packet) ≤ length out.old }
    ensures behind { result ≡ at + length (codes_in packet) }
    ensures codes { out.new ≡ written_at at (codes_in packet) out.old }
{
    let count = packets::code_count(packet);
    if count == 6 {
        put_six(six_codes(packet), out, at);
        return at + 6;
    }
    packets::decode_codes(packet, out, at);
    at + count
}

// How many blocks of sixteen packets are written at once, of so many packets before the last.
fn block_count(alphabet: u32, last: usize) -> usize
    ensures { 16 * result ≤ last - spare alphabet }
{
    if residues::is_amino(alphabet) {
        last / 16
    } else {
        last.saturating_sub(2) / 16
    }
}

// Writes the codes of so many blocks of sixteen packets of a well-formed run at the start of the output; how many codes they are.
fn write_blocks(alphabet: u32, bytes: &[u8], blocks: usize, out: &mut [u8]) -> usize
    requires bytes_value { (well_formed alphabet (packets_of bytes.now) ≡ true) × (length (unpacked (packets_of bytes.now)) ≤ length out.old) }
    requires blocks_in_bounds { 16 * blocks ≤ length (packets_of bytes.now) - 1 - spare alphabet }
    ensures count { result ≡ length (codes_from (packets_of bytes.now) 0 (16 * blocks)) }
    ensures codes { Begun 0 (codes_from (packets_of bytes.now) 0 (16 * blocks)) (length (unpacked (packets_of bytes.now))) out.old out.new }
{
    let mut at: usize = 0;
    for i in 0..blocks {
        let start = start_of(PacketPos((16 * i) as u64));
        at = put_block(alphabet, &bytes[start..], out, at);
    }
    at
}

// Writes the residues of a well-formed run from a packet on, from a place of the output on.
fn write_rest(alphabet: u32, bytes: &[u8], from: usize, out: &mut [u8], place: usize)
    requires bytes_value { (well_formed alphabet (packets_of bytes.now) ≡ true) × (from < length (packets_of bytes.now)) }
    requires bytes_in_bounds { place + length (unpacked (drop from (packets_of bytes.now))) ≤ length out.old }
    ensures { out.new ≡ written_at place (unpacked (drop from (packets_of bytes.now))) out.old }
{
    let last = bytes.len() / 4 - 1;
    let mut at = place;
    for i in from..last {
        at = put_one(packet_at(bytes, PacketPos(i as u64)), out, at);
    }
    packets::decode(packet_at(bytes, PacketPos(last as u64)), out, at);
}

// Writes the residues of a well-formed run of little-endian bytes at the start of the output.
pub(crate) fn write_residues(alphabet: u32, bytes: &[u8], out: &mut [u8])
    requires { (well_formed alphabet (packets_of bytes.now) ≡ true) × (length (unpacked (packets_of bytes.now)) ≤ length out.old) }
    ensures { out.new ≡ written_at 0 (unpacked (packets_of bytes.now)) out.old }
{
    let blocks = block_count(alphabet, bytes.len() / 4 - 1);
    let at = write_blocks(alphabet, bytes, blocks, out);
    write_rest(alphabet, bytes, 16 * blocks, out, at);
}
