// The console's calls: numbers and byte ranges in, an answer number out, results as eight-byte little-endian numbers.
#![tactic(auto)]

mod results;

ghost use Rattle.std.specs.Prelude.{◌≡◌, length};
ghost use Rattle.runs.specs.Answers.{pack_number, unpack_number};
ghost use Rattle.console.specs.Calls.{console_pack, console_buffer, pack_results, console_unpack, console_codes, unpack_results, console_volume, volume_results};
ghost use Rattle.volume.specs.Volume.{volume_number};

use answers::Refusal;
use byte_runs::unpack_bytes_answer;
use packets::PacketPos;
pub use results::put_results;

// The bytes that the results of each call take.
const PACK_RESULTS: usize = 16;

const UNPACK_RESULTS: usize = 16;

const CHECK_VOLUME_RESULTS: usize = 64;

// Packs residue codes as one run of little-endian packets at a place, counted in packets, of a buffer.
#[unsafe(no_mangle)]
pub extern "C" fn gull_pack(
    alphabet: u32,
    codes: &[u8],
    buffer: &mut [u8],
    place: u64,
    results: &mut [u8],
) -> u32
    ensures number { result ≡ pack_number (console_pack alphabet codes.now buffer.old place (length results.old)) }
    ensures buffer { buffer.new ≡ console_buffer alphabet codes.now buffer.old place (length results.old) }
    ensures results { results.new ≡ pack_results (console_pack alphabet codes.now buffer.old place (length results.old)) results.old }
{
    if results.len() < PACK_RESULTS {
        // nothing may be written: only the answer is wanted
        let room = buffer.len() / 4;
        return match runs::pack_answer(alphabet, codes, room as u64, PacketPos(place)) {
            Ok(_) => u32::from(Refusal::NoRoom),
            Err(r) => u32::from(r),
        };
    }
    match byte_runs::pack_bytes(alphabet, codes, buffer, PacketPos(place)) {
        Ok(size) => {
            put_results(results, &[size.packets, size.residues]);
            0
        }
        Err(r) => u32::from(r),
    }
}

// Unpacks one run of little-endian packets into residue codes.
#[unsafe(no_mangle)]
pub extern "C" fn gull_unpack(
    alphabet: u32,
    packets: &[u8],
    codes: &mut [u8],
    results: &mut [u8],
) -> u32
    ensures number { result ≡ unpack_number (console_unpack alphabet packets.now (length codes.old) (length results.old)) }
    ensures codes { codes.new ≡ console_codes alphabet packets.now codes.old (length results.old) }
    ensures results { results.new ≡ unpack_results (console_unpack alphabet packets.now (length codes.old) (length results.old)) results.old }
{
    if results.len() < UNPACK_RESULTS {
        return match unpack_bytes_answer(alphabet, packets, codes.len()) {
            Ok(_) => u32::from(Refusal::NoRoom),
            Err(r) => u32::from(r),
        };
    }
    match byte_runs::unpack_bytes(alphabet, packets, codes) {
        Ok(size) => {
            let counts = [size.packets, size.residues];
            put_results(results, &counts);
            0
        }
        Err(r) => u32::from(r),
    }
}

// Checks a volume: its index, sequence and header file.
#[unsafe(no_mangle)]
pub extern "C" fn gull_check_volume(
    index: &[u8],
    sequence: &[u8],
    header: &[u8],
    results: &mut [u8],
) -> u32
    ensures number { result ≡ volume_number (console_volume index.now sequence.now header.now (length results.old)) }
    ensures results { results.new ≡ volume_results (console_volume index.now sequence.now header.now (length results.old)) results.old }
{
    match volume::check_volume(index, sequence, header) {
        Ok(_) if results.len() < CHECK_VOLUME_RESULTS => u32::from(Refusal::NoRoom),
        Ok(v) => {
            let fields = [
                v.kind as u64,
                v.sequences as u64,
                v.residues as u64,
                v.longest as u64,
                v.title_start as u64,
                v.title_length as u64,
                v.timestamp_start as u64,
                v.timestamp_length as u64,
            ];
            put_results(results, &fields);
            0
        }
        Err(r) => u32::from(r),
    }
}
