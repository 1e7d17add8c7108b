// Packets that are bytes, read as a run in either byte order. The compiler takes the order's test out of the loops.
ghost use Rattle.std.specs.Prelude.{◌≡◌, true, ◌/◌, ◌≤◌, eqb, length};
ghost use Rattle.packets.specs.Bytes.{packets_by};
ghost use Rattle.packets.specs.Reading.{inner_to, codes_to, five_bit_to};
ghost use Rattle.byte_runs.specs.Bytes.{run_in};

use crate::bytes::{packet_by, word_at};
use fields::Order;
use packets::PacketPos;

// The faults of the first packets, put together: 0 where each may stand in a run before its last. No packet ends the loop early, so that
// the compiler tests several at once.
fn inner_faults(order: Order, alphabet: u32, bytes: &[u8], count: usize) -> u32
    requires { count ≤ length bytes.now / 4 }
    ensures { eqb result 0 ≡ inner_to alphabet (packets_by order bytes.now) count }
{
    let mut faults: u32 = 0;
    for i in 0..count {
        faults |= packets::word_fault(order, alphabet, word_at(bytes, PacketPos(i as u64)));
    }
    faults
}

// How many of the first packets hold 5-bit codes.
pub(crate) fn five_bit_packets(order: Order, bytes: &[u8], count: usize) -> u32
    requires { (count ≤ length bytes.now / 4) × (count ≤ 536870912) }
    ensures { result ≡ five_bit_to (packets_by order bytes.now) count }
{
    let mut fives: u32 = 0;
    for i in 0..count {
        fives += packet_by(order, bytes, PacketPos(i as u64)) / 0x40000000 % 2;
    }
    fives
}

// The number of codes of the first packets, where each may stand in a run before its last.
fn inner_codes(order: Order, alphabet: u32, bytes: &[u8], count: usize) -> usize
    requires count_in_bounds { (count ≤ length bytes.now / 4) × (count ≤ 536870912) }
    requires count_value { inner_to alphabet (packets_by order bytes.now) count ≡ true }
    ensures { result ≡ codes_to (packets_by order bytes.now) count }
{
    if residues::is_amino(alphabet) {
        6 * count
    } else {
        15 * count - 9 * five_bit_packets(order, bytes, count) as usize
    }
}

// Reads bytes as a run, in an order. Bytes past the last whole packet are unused; more than a call takes are no run. It is never made a part of
// its caller: by itself the compiler takes the tests of order and alphabet out of the loops, inside a caller's loop it does not.
#[inline(never)]
pub fn read_run(order: Order, alphabet: u32, bytes: &[u8]) -> Option<usize>
    ensures { result ≡ run_in order alphabet bytes.now }
{
    if bytes.len() > answers::MOST_BYTES {
        return None;
    }
    let count = bytes.len() / 4;
    if count == 0 {
        return None;
    }
    let last = count - 1;
    if inner_faults(order, alphabet, bytes, last) != 0 {
        return None;
    }
    let packet = packet_by(order, bytes, PacketPos(last as u64));
    if !packets::is_last(alphabet, last == 0, packet) {
        return None;
    }
    Some(inner_codes(order, alphabet, bytes, last) + packets::residue_count(packet))
}
