// The C face: the console's calls, exported under the names of include/gullcordage.h. Each is the library's call, with its clauses.
#![tactic(auto)]

ghost use Rattle.std.specs.Prelude.{◌≡◌, length};
ghost use Rattle.runs.specs.Answers.{pack_number, unpack_number};
ghost use Rattle.console.specs.Calls.{console_pack, console_buffer, pack_results, console_unpack, console_codes, unpack_results, console_volume, volume_results};
ghost use Rattle.volume.specs.Volume.{volume_number};

// Packs residue codes as one run of little-endian packets at a place, counted in packets, of a buffer.
#[unsafe(no_mangle)]
pub extern "C" fn gull_pack(
    alphabet: u32,
    codes: &[u8],
    buffer: &mut [u8],
    place: u64,
    results: &mut [u8],
) -> u32
    ensures number { result ≡ pack_number (console_pack alphabet codes.now buffer.old place (length results.old)) }
    ensures buffer { buffer.new ≡ console_buffer alphabet codes.now buffer.old place (length results.old) }
    ensures results { results.new ≡ pack_results (console_pack alphabet codes.now buffer.old place (length results.old)) results.old }
{
    console::gull_pack(alphabet, codes, buffer, place, results)
}

// Unpacks one run of little-endian packets into residue codes.
#[unsafe(no_mangle)]
pub extern "C" fn gull_unpack(
    alphabet: u32,
    packets: &[u8],
    codes: &mut [u8],
    results: &mut [u8],
) -> u32
    ensures number { result ≡ unpack_number (console_unpack alphabet packets.now (length codes.old) (length results.old)) }
    ensures codes { codes.new ≡ console_codes alphabet packets.now codes.old (length results.old) }
    ensures results { results.new ≡ unpack_results (console_unpack alphabet packets.now (length codes.old) (length results.old)) results.old }
{
    console::gull_unpack(alphabet, packets, codes, results)
}

// Checks a volume: its index, sequence and header file.
#[unsafe(no_mangle)]
pub extern "C" fn gull_check_volume(
    index: &[u8],
    sequence: &[u8],
    header: &[u8],
    results: &mut [u8],
) -> u32
    ensures number { result ≡ volume_number (console_volume index.now sequence.now header.now (length results.old)) }
    ensures results { results.new ≡ volume_results (console_volume index.now sequence.now header.now (length results.old)) results.old }
{
    console::gull_check_volume(index, sequence, header, results)
}
