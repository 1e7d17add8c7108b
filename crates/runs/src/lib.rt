// Packing and unpacking over packets. Every public function takes any codes and packets.
#![tactic(auto)]

ghost use Rattle.std.specs.Prelude.{◌≡◌, true, ◌+◌, ◌≤◌, eqb, length};
ghost use Rattle.laws.specs.Writing.{written_at};
ghost use Rattle.answers.specs.Limits.{checked_by};
ghost use Rattle.residues.specs.Alphabets.{valid_codes};
ghost use Rattle.packets.specs.Packing.{run};
ghost use Rattle.packets.specs.Runs.{well_formed, unpacked};
ghost use Rattle.packets.specs.Reading.{inner_to, codes_to, run_length};
ghost use Rattle.runs.specs.Answers.{run_fits, pack_rules, pack_answer, packets_after, unpack_answer, codes_after};

use answers::Refusal;
use packets::PacketPos;

// How large a run is: its packets, and L.
#[derive(Clone, Copy)]
pub struct RunSize {
    pub packets: u64,
    pub residues: u64,
}

// Counts the packets of a run, packet by packet.
#[tactic(auto, using(crate::proofs::Turns::turns))]
fn count_run(alphabet: u32, codes: &[u8]) -> usize
    ensures { result ≡ length (run alphabet codes.now) }
{
    let mut rest = codes;
    let mut count: usize = 0;
    loop {
        let next = packets::encode(alphabet, rest, rest.len());
        count += 1;
        if rest.len() <= next.size {
            return count;
        }
        rest = &rest[next.size..];
    }
}

// The number of packets of a run.
#[tactic(auto, using(packets::proofs::Lengths::run_amino))]
fn run_length(alphabet: u32, codes: &[u8]) -> usize
    ensures { result ≡ length (run alphabet codes.now) }
{
    if residues::is_amino(alphabet) {
        packets::sixes_of(codes.len())
    } else {
        count_run(alphabet, codes)
    }
}

// Whether a buffer of so many packets has room for a run from its place on.
#[tactic(auto, using(packets::proofs::Lengths::at_most))]
fn run_fits(alphabet: u32, codes: &[u8], room: u64, place: PacketPos) -> bool
    ensures { result ≡ run_fits alphabet codes.now room place.0 }
{
    let Some(left) = room.checked_sub(place.0) else {
        return false;
    };
    packets::sixes_of(codes.len()) as u64 <= left || run_length(alphabet, codes) as u64 <= left
}

// The rules of packing, with so many packets of room; nothing is written.
pub fn check_pack(alphabet: u32, codes: &[u8], room: u64, place: PacketPos) -> Result<(), Refusal>
    ensures { result ≡ checked_by (pack_rules alphabet codes.now room place.0) }
{
    if codes.len() > answers::MOST_BYTES {
        return Err(Refusal::TooLarge);
    }
    if !residues::is_alphabet(alphabet) {
        return Err(Refusal::WrongKind);
    }
    if !packets::valid_codes(alphabet, codes) {
        return Err(Refusal::BadCode);
    }
    if !run_fits(alphabet, codes, room, place) {
        return Err(Refusal::NoRoom);
    }
    Ok(())
}

// What packing answers with so many packets of room; nothing is written.
#[tactic(auto, unfolding(crate::specs::Answers::pack_answer))]
pub fn pack_answer(
    alphabet: u32,
    codes: &[u8],
    room: u64,
    place: PacketPos,
) -> Result<RunSize, Refusal>
    ensures { result ≡ pack_answer alphabet codes.now room place.0 }
{
    check_pack(alphabet, codes, room, place)?;
    let count = run_length(alphabet, codes);
    Ok(RunSize {
        packets: count as u64,
        residues: codes.len() as u64,
    })
}

// Writes a run at the start of a buffer.
fn write_run(alphabet: u32, codes: &[u8], buffer: &mut [u32]) -> usize
    requires { (valid_codes alphabet codes.now ≡ true) × (length (run alphabet codes.now) ≤ length buffer.old) }
    ensures count { result ≡ length (run alphabet codes.now) }
    ensures packets { buffer.new ≡ written_at 0 (run alphabet codes.now) buffer.old }
{
    let mut rest = codes;
    let mut count: usize = 0;
    loop {
        let next = packets::encode(alphabet, rest, rest.len());
        buffer[count] = next.packet;
        count += 1;
        if rest.len() <= next.size {
            return count;
        }
        rest = &rest[next.size..];
    }
}

// Packs a sequence: appends its run at a place of a packet buffer.
pub fn pack(
    alphabet: u32,
    codes: &[u8],
    buffer: &mut [u32],
    place: PacketPos,
) -> Result<RunSize, Refusal>
    ensures answer { result ≡ pack_answer alphabet codes.now (length buffer.old) place.0 }
    ensures packets { buffer.new ≡ packets_after alphabet codes.now buffer.old place.0 }
{
    check_pack(alphabet, codes, buffer.len() as u64, place)?;
    let count = write_run(alphabet, codes, &mut buffer[place.0 as usize..]);
    Ok(RunSize {
        packets: count as u64,
        residues: codes.len() as u64,
    })
}

// The faults of packets, put together: 0 where each may stand in a run before its last. No packet ends the loop early, so that the compiler
// tests several at once.
#[tactic(auto, using(packets::proofs::Reading::turns))]
fn inner_faults(alphabet: u32, source: &[u32]) -> u32
    ensures { eqb result 0 ≡ inner_to alphabet source.now (length source.now) }
{
    let mut faults: u32 = 0;
    for packet in source {
        faults |= packets::inner_fault(alphabet, *packet);
    }
    faults
}

// The number of codes of packets.
#[tactic(auto, using(packets::proofs::Reading::turns))]
fn count_codes(source: &[u32]) -> usize
    requires { length source.now ≤ 536870912 }
    ensures { result ≡ codes_to source.now (length source.now) }
{
    let mut total: usize = 0;
    for packet in source {
        total += packets::code_count(*packet);
    }
    total
}

// Reads packets as a run.
fn read_run(alphabet: u32, source: &[u32]) -> Option<usize>
    requires { length source.now ≤ 536870912 }
    ensures { result ≡ run_length alphabet source.now }
{
    let (last, before) = source.split_last()?;
    if inner_faults(alphabet, before) != 0
        || !packets::is_last(alphabet, before.is_empty(), *last)
    {
        return None;
    }
    Some(count_codes(before) + packets::residue_count(*last))
}

// What unpacking answers with so many bytes of room; nothing is written.
#[tactic(auto, using(packets::proofs::Reading::reads), unfolding(crate::specs::Answers::unpack_answer))]
fn unpack_answer(alphabet: u32, source: &[u32], room: usize) -> Result<RunSize, Refusal>
    ensures { result ≡ unpack_answer alphabet source.now room }
{
    if source.len() > answers::MOST_PACKETS {
        return Err(Refusal::TooLarge);
    }
    if !residues::is_alphabet(alphabet) {
        return Err(Refusal::WrongKind);
    }
    let total = read_run(alphabet, source).ok_or(Refusal::BadRun)?;
    if room < total {
        Err(Refusal::NoRoom)
    } else {
        Ok(RunSize {
            packets: source.len() as u64,
            residues: total as u64,
        })
    }
}

// Writes the residues of a well-formed run at the start of the output.
fn write_residues(alphabet: u32, source: &[u32], out: &mut [u8])
    requires { (well_formed alphabet source.now ≡ true) × (length (unpacked source.now) ≤ length out.old) }
    ensures { out.new ≡ written_at 0 (unpacked source.now) out.old }
{
    let last = source.len() - 1;
    let mut at: usize = 0;
    for packet in &source[..last] {
        packets::decode_codes(*packet, out, at);
        at += packets::code_count(*packet);
    }
    packets::decode(source[last], out, at);
}

// Unpacks a run: writes its residues at the start of the output.
#[tactic(auto, using(crate::proofs::Answers::unpacked_may, crate::proofs::Answers::codes_kept, crate::proofs::Answers::codes_written))]
pub fn unpack(alphabet: u32, source: &[u32], out: &mut [u8]) -> Result<RunSize, Refusal>
    ensures answer { result ≡ unpack_answer alphabet source.now (length out.old) }
    ensures codes { out.new ≡ codes_after alphabet source.now out.old }
{
    let size = unpack_answer(alphabet, source, out.len())?;
    write_residues(alphabet, source, out);
    Ok(size)
}
