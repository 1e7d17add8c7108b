// Packets: places, one packet from codes and back, and the tests of a packet by its place in a run. Every public function is total.
#![tactic(auto)]

mod encoding;
mod words;

ghost use Rattle.std.specs.Prelude.{◌≡◌, [], ◌∷◌, not, ◌==◌, nat_lt, ◌+◌, ◌/◌, ◌%◌, ◌^◌, ◌≤◌, ◌<◌, leb, eqb, length, take, count_by};
ghost use Rattle.std.specs.List.{prefix_len};
ghost use Rattle.laws.specs.Digits.{digits};
ghost use Rattle.fields.specs.Number.{little};
ghost use Rattle.fields.specs.Written.{little_bytes, number_put};
ghost use Rattle.packets.specs.Positions.{byte_of};
ghost use Rattle.packets.specs.Runs.{ends_run, is_five_bit, codes_in, before_fill, residues, valid_tailed, inner, final, formed};
ghost use Rattle.packets.specs.Decoded.{put_at, codes_put, residues_put};

pub use encoding::{encode, next_two_bit, sixes_of, valid_codes};
pub use words::word_fault;

// A place counted in packets.
#[derive(Clone, Copy)]
pub struct PacketPos(pub u64);

// A place counted in bytes.
#[derive(Clone, Copy)]
pub struct BytePos(pub u64);

// The next packet, and how many residues it takes.
#[derive(Clone, Copy)]
pub struct Next {
    pub packet: u32,
    pub size: usize,
}

// The byte at which a packet begins, behind a header of so many bytes. Asked so, the test is taken out of loops over the packets of a range,
// where a saturating product stays in them.
pub fn byte_of(place: PacketPos, header: u64) -> BytePos
    ensures { result.0 ≡ byte_of header place.0 }
{
    if place.0 > (u64::MAX - header) / 4 {
        return BytePos(u64::MAX);
    }
    BytePos(4 * place.0 + header)
}

// Whether a packet ends a run.
fn ends_run(packet: u32) -> bool
    ensures { result ≡ ends_run packet }
{
    packet / 0x80000000 % 2 == 1
}

// Whether a packet holds six 5-bit codes; otherwise it holds fifteen 2-bit codes.
fn is_five_bit(packet: u32) -> bool
    ensures { result ≡ is_five_bit packet }
{
    packet / 0x40000000 % 2 == 1
}

// The number of codes of a packet, those that are 31 among them.
#[tactic(auto, using(crate::proofs::Codes::counts))]
pub fn code_count(packet: u32) -> usize
    ensures { result ≡ length (codes_in packet) }
{
    if is_five_bit(packet) { 6 } else { 15 }
}

// The 5-bit code of a packet whose lowest bit is this one.
fn code_at(packet: u32, bit: u32) -> u8
    requires { bit ≤ 25 }
    ensures { result ≡ packet / 2 ^ bit % 32 }
{
    ((packet >> bit) % 32) as u8
}

// The six 5-bit codes of a packet.
fn five_bit_codes(packet: u32) -> [u8; 6]
    ensures { result ≡ digits 5 6 packet }
{
    [
        code_at(packet, 25),
        code_at(packet, 20),
        code_at(packet, 15),
        code_at(packet, 10),
        code_at(packet, 5),
        code_at(packet, 0),
    ]
}

// The number of codes in front that are below a limit.
fn count_valid(codes: &[u8], limit: u8) -> usize
    ensures { result ≡ prefix_len (λ c. nat_lt c limit) codes.now }
{
    codes.iter().take_while(|code| **code < limit).count()
}

// The number of codes that are 31.
fn count_fill(codes: &[u8]) -> usize
    ensures { result ≡ count_by (λ c. c == 31) codes.now }
{
    let mut count = 0;
    for code in codes {
        if *code == 31 {
            count += 1;
        }
    }
    count
}

// Whether codes are below a limit, then only 31: those in front and the fill are all. A walk of two parts would keep the codes of a packet in
// memory, where these counts have them in registers.
fn valid_tailed(codes: &[u8], limit: u8) -> bool
    requires { limit ≤ 31 }
    ensures { result ≡ valid_tailed limit codes.now }
{
    count_valid(codes, limit) + count_fill(codes) == codes.len()
}

// The number of codes before the first 31.
fn count_before(codes: &[u8]) -> usize
    ensures { result ≡ prefix_len (λ c. not (c == 31)) codes.now }
{
    codes.iter().take_while(|code| **code != 31).count()
}

// The number of residues of a packet.
#[tactic(auto, using(crate::proofs::Codes::counts))]
pub fn residue_count(packet: u32) -> usize
    ensures { result ≡ length (residues packet) }
{
    if is_five_bit(packet) {
        count_before(&five_bit_codes(packet))
    } else {
        15
    }
}

// 0 where a packet may stand in an amino run before its last: bits 31 and 30 are 01, and no code is above 27. The mask takes bit 2 of each
// of the six codes, so one expression without a branch tests all of them, and a loop over packets is vectorised.
#[tactic(auto, using(crate::proofs::Faults::amino_fault))]
pub(crate) fn amino_fault(packet: u32) -> u32
    ensures { eqb result 0 ≡ inner 3 packet }
{
    let high = (packet & 0x08421084) & ((packet / 2 & 0x08421084) & (packet / 4 & 0x08421084));
    high | (packet / 0x40000000 ^ 1)
}

// 0 where a packet may stand in a nucleic run before its last: bit 31 is clear, and no 5-bit code is above 15. The mask takes bit 4 of each.
#[tactic(auto, using(crate::proofs::Faults::nucleic_fault, crate::proofs::Faults::masked_most))]
pub(crate) fn nucleic_fault(packet: u32) -> u32
    ensures { eqb result 0 ≡ inner 1 packet }
{
    let five = packet / 0x40000000 % 2;
    (packet & 0x21084210) * five | packet / 0x80000000
}

// 0 where a packet may stand in a run before its last.
#[tactic(auto, using(crate::proofs::Faults::inner_nucleic))]
pub fn inner_fault(alphabet: u32, packet: u32) -> u32
    ensures { eqb result 0 ≡ inner alphabet packet }
{
    if residues::is_amino(alphabet) {
        amino_fault(packet)
    } else {
        nucleic_fault(packet)
    }
}

// Whether a packet may be a run's last.
#[tactic(auto, using(crate::proofs::Codes::final_goes, crate::proofs::Codes::final_two))]
fn is_final(alphabet: u32, packet: u32) -> bool
    ensures { result ≡ final alphabet packet }
{
    ends_run(packet)
        && if is_five_bit(packet) {
            valid_tailed(&five_bit_codes(packet), residues::code_limit(alphabet))
        } else {
            !residues::is_amino(alphabet)
        }
}

// Whether a packet may end a run, of which it is the only packet or not: one without residues stands only as the whole run.
#[tactic(auto, unfolding(crate::specs::Runs::formed))]
pub fn is_last(alphabet: u32, alone: bool, packet: u32) -> bool
    ensures { result ≡ formed alphabet alone (packet ∷ []) }
{
    is_final(alphabet, packet) && (alone || 0 < residue_count(packet))
}

// The four 2-bit codes of a byte as the bytes of a number, the first code in the lowest.
fn four_codes(byte: u32) -> u32
    requires { byte < 256 }
    ensures codes { little_bytes 4 result ≡ digits 2 4 byte }
{
    // the product moves each code to its byte, and the mask takes away what stands beside it
    let spread = byte as u64 * 0x100401004 / 256;
    (spread & 0x03030303) as u32
}

// Whether so many places from one on lie within a range of so much room.
fn has_room(room: usize, at: usize, count: usize) -> bool
    ensures { result ≡ leb (at + count) room }
{
    at <= room && count <= room - at
}

// Writes codes from a place of the output on; nothing where they do not fit.
fn put(codes: &[u8], out: &mut [u8], at: usize)
    ensures { out.new ≡ put_at codes.now at out.old }
{
    if has_room(out.len(), at, codes.len()) {
        out[at..at + codes.len()].copy_from_slice(codes);
    }
}

// Writes the first 5-bit codes of a packet from a place of the output on, one by one, which is faster than a copy of so few; nothing where they
// do not fit.
fn put_first(packet: u32, count: usize, out: &mut [u8], at: usize)
    requires { count ≤ 6 }
    ensures { out.new ≡ put_at (take count (digits 5 6 packet)) at out.old }
{
    if has_room(out.len(), at, count) {
        for i in 0..count {
            out[at + i] = code_at(packet, 25 - 5 * i as u32);
        }
    }
}

// Writes the four bytes of a number at a place, the lowest first, with no test of the room.
fn store(n: u32, out: &mut [u8], at: usize)
    requires { at + 4 ≤ length out.old }
    ensures { out.new ≡ number_put little 4 at n out.old }
{
    out[at..at + 4].copy_from_slice(&n.to_le_bytes());
}

// Writes the fifteen 2-bit codes of a packet, four at once: the last four begin with one that was written.
fn put_two_bit(packet: u32, out: &mut [u8], at: usize)
    ensures { out.new ≡ put_at (digits 2 15 packet) at out.old }
{
    if has_room(out.len(), at, 15) {
        store(four_codes((packet >> 22) % 256), out, at);
        store(four_codes((packet >> 14) % 256), out, at + 4);
        store(four_codes((packet >> 6) % 256), out, at + 8);
        store(four_codes(packet % 256), out, at + 11);
    }
}

// Writes the codes of a packet from a place of the output on, those that are 31 among them; nothing where they do not fit.
#[tactic(auto, using(crate::proofs::Codes::codes_put_five, crate::proofs::Codes::codes_put_two))]
pub fn decode_codes(packet: u32, out: &mut [u8], at: usize)
    ensures { out.new ≡ codes_put packet at out.old }
{
    if is_five_bit(packet) {
        put(&five_bit_codes(packet), out, at);
    } else {
        put_two_bit(packet, out, at);
    }
}

// Writes the residues of a packet from a place of the output on; nothing where they do not fit.
pub fn decode(packet: u32, out: &mut [u8], at: usize)
    ensures { out.new ≡ residues_put packet at out.old }
{
    if is_five_bit(packet) {
        put_first(packet, count_before(&five_bit_codes(packet)), out, at);
    } else {
        put_two_bit(packet, out, at);
    }
}
