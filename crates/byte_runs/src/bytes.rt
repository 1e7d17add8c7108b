// One packet as bytes at a place: read in either byte order, written little-endian.
ghost use Rattle.std.specs.Prelude.{◌≡◌, [], ◌∷◌, ◌+◌, ◌*◌, ◌/◌, ◌^◌, ◌≤◌, ◌<◌, length, get_or};
ghost use Rattle.laws.specs.Writing.{written_at};
ghost use Rattle.fields.specs.Number.{bytes_at};
ghost use Rattle.fields.specs.Written.{little_bytes};
ghost use Rattle.packets.specs.Packing.{four_from};
ghost use Rattle.packets.specs.Bytes.{packets_by, packets_of, bytes_of};

use fields::Order;
use packets::PacketPos;

// Four bytes from a place on, as a number, the first lowest.
pub(crate) fn four_at(bytes: &[u8], at: usize) -> u32
    requires { at + 4 ≤ length bytes.now }
    ensures value { result ≡ four_from bytes.now at }
    ensures bytes { little_bytes 4 result ≡ bytes_at 4 bytes.now at 0 }
{
    fields::word(bytes[at], bytes[at + 1], bytes[at + 2], bytes[at + 3])
}

// The byte at which a packet begins.
pub(crate) fn start_of(place: PacketPos) -> usize
    requires { 4 * place.0 < 2 ^ 64 }
    ensures { result ≡ 4 * place.0 }
{
    packets::byte_of(place, 0).0 as usize
}

// The word of the packet at a place: its four bytes as a number, the first lowest.
pub(crate) fn word_at(bytes: &[u8], place: PacketPos) -> u32
    requires { place.0 < length bytes.now / 4 }
    ensures { little_bytes 4 result ≡ bytes_at 4 bytes.now (4 * place.0) 0 }
{
    four_at(bytes, start_of(place))
}

// The packet at a place, in an order.
pub(crate) fn packet_by(order: Order, bytes: &[u8], place: PacketPos) -> u32
    requires { place.0 < length bytes.now / 4 }
    ensures { result ≡ get_or (packets_by order bytes.now) place.0 0 }
{
    fields::number_by(order, word_at(bytes, place))
}

// The packet at a place, little-endian.
pub(crate) fn packet_at(bytes: &[u8], place: PacketPos) -> u32
    requires { place.0 < length bytes.now / 4 }
    ensures { result ≡ get_or (packets_of bytes.now) place.0 0 }
{
    packet_by(Order::Little, bytes, place)
}

// Writes the low bytes of a number from a place on, the lowest first.
pub(crate) fn store(n: u32, count: usize, out: &mut [u8], at: usize)
    requires { (count ≤ 4) × (at + count ≤ length out.old) }
    ensures { out.new ≡ written_at at (little_bytes count n) out.old }
{
    out[at..at + count].copy_from_slice(&n.to_le_bytes()[..count]);
}

// Writes a packet at its place.
pub(crate) fn put_packet(packet: u32, out: &mut [u8], place: PacketPos)
    requires { place.0 < length out.old / 4 }
    ensures { out.new ≡ written_at (4 * place.0) (bytes_of (packet ∷ [])) out.old }
{
    store(packet, 4, out, start_of(place));
}

// Writes packets one behind another at the start of the output.
pub(crate) fn put_packets<const N: usize>(packets: &[u32; N], out: &mut [u8])
    requires { 4 * N ≤ length out.old }
    ensures { out.new ≡ written_at 0 (bytes_of packets.now) out.old }
{
    for i in 0..N {
        put_packet(packets[i], out, PacketPos(i as u64));
    }
}
