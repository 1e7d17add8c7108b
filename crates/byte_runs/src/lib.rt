// Packing into and unpacking from packets that are little-endian bytes. Every public function takes any bytes.
#![tactic(auto)]

mod bytes;
mod packing;
mod reading;
mod unpacking;

ghost use Rattle.std.specs.Prelude.{◌≡◌, length};
ghost use Rattle.byte_runs.specs.Bytes.{pack_bytes_answer, bytes_after, unpack_bytes_answer, codes_after_bytes};

use answers::Refusal;
use fields::Order;
use packets::PacketPos;
pub use reading::read_run;
use runs::RunSize;

// Packs a sequence: appends its run at a place of packets that are little-endian bytes.
pub fn pack_bytes(
    alphabet: u32,
    codes: &[u8],
    bytes: &mut [u8],
    place: PacketPos,
) -> Result<RunSize, Refusal>
    ensures answer { result ≡ pack_bytes_answer alphabet codes.now bytes.old place.0 }
    ensures bytes { bytes.new ≡ bytes_after alphabet codes.now bytes.old place.0 }
{
    runs::check_pack(alphabet, codes, (bytes.len() / 4) as u64, place)?;
    let count = packing::write_run(alphabet, codes, bytes, place);
    Ok(RunSize {
        packets: count as u64,
        residues: codes.len() as u64,
    })
}

// What unpacking little-endian bytes answers with so many bytes of room; nothing is written.
pub fn unpack_bytes_answer(alphabet: u32, bytes: &[u8], room: usize) -> Result<RunSize, Refusal>
    ensures { result ≡ unpack_bytes_answer alphabet bytes.now room }
{
    if bytes.len() > answers::MOST_BYTES {
        return Err(Refusal::TooLarge);
    }
    if bytes.len() % 4 != 0 {
        return Err(Refusal::TooShort);
    }
    if !residues::is_alphabet(alphabet) {
        return Err(Refusal::WrongKind);
    }
    let total = read_run(Order::Little, alphabet, bytes).ok_or(Refusal::BadRun)?;
    if room < total {
        return Err(Refusal::NoRoom);
    }
    Ok(RunSize {
        packets: (bytes.len() / 4) as u64,
        residues: total as u64,
    })
}

// Unpacks a run of little-endian bytes: writes its residues at the start of the output.
pub fn unpack_bytes(alphabet: u32, bytes: &[u8], out: &mut [u8]) -> Result<RunSize, Refusal>
    ensures answer { result ≡ unpack_bytes_answer alphabet bytes.now (length out.old) }
    ensures codes { out.new ≡ codes_after_bytes alphabet bytes.now out.old }
{
    let size = unpack_bytes_answer(alphabet, bytes, out.len())?;
    unpacking::write_residues(alphabet, bytes, out);
    Ok(size)
}
