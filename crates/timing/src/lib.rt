// Calls that the C face lacks, exported for the benchmark and the tests alone. They are never linked into the library.
#![tactic(auto)]

ghost use Rattle.std.specs.Prelude.{◌≡◌, length};
ghost use Rattle.fields.specs.Number.{little};
ghost use Rattle.fields.specs.Written.{number_put};
ghost use Rattle.dsqdata.specs.Check.{set_number};
ghost use Rattle.sequence.specs.Sequence.{decode_answer, decode_output, decode_number};
ghost use Rattle.pages.specs.Page.{page_answer, page_output, page_ends, page_number, page_done};
ghost use Rattle.nucleotides.specs.Write.{write_answer, write_output, write_number};
ghost use Rattle.timing.specs.Calls.{timed_set, set_results, sizes_put};

use answers::Refusal;
use fields::{Order, Unsigned};
use pages::Stop;

// The bytes that the results of a set check take.
const CHECK_SET_RESULTS: usize = 88;

// Checks a set: its index, metadata and sequence file. The results are the ten header fields, and the number of the byte order.
#[unsafe(no_mangle)]
pub extern "C" fn gull_time_check_set(
    index: &[u8],
    metadata: &[u8],
    sequence: &[u8],
    results: &mut [u8],
) -> u32
    ensures number { result ≡ set_number (timed_set index.now metadata.now sequence.now (length results.old)) }
    ensures results { results.new ≡ set_results (timed_set index.now metadata.now sequence.now (length results.old)) results.old }
{
    match dsqdata::check_set(index, metadata, sequence) {
        Ok(_) if results.len() < CHECK_SET_RESULTS => u32::from(Refusal::NoRoom),
        Ok(set) => {
            let values = [
                set.magic as u64,
                set.tag as u64,
                set.alphabet as u64,
                set.flags as u64,
                set.longest_name as u64,
                set.longest_accession as u64,
                set.longest_description as u64,
                set.longest_sequence,
                set.count,
                set.residues,
                dsqdata::order_number(set.order),
            ];
            console::put_results(results, &values);
            0
        }
        Err(r) => u32::from(r),
    }
}

// Decodes the sequence of a number. There is no results range: the caller knows L from the index.
#[unsafe(no_mangle)]
pub extern "C" fn gull_time_decode(
    index: &[u8],
    sequence: &[u8],
    number: u64,
    out: &mut [u8],
) -> u32
    ensures number { result ≡ decode_number (decode_answer index.now sequence.now number (length out.old)) }
    ensures output { out.new ≡ decode_output index.now sequence.now number out.old }
{
    match sequence::decode(index, sequence, number, out) {
        Ok(_) => 0,
        Err(r) => u32::from(r),
    }
}

// Fetches a page. The results are how many items were done, on a refusal too.
#[unsafe(no_mangle)]
pub extern "C" fn gull_time_fetch_page(
    index: &[u8],
    sequence: &[u8],
    numbers: &[u64],
    out: &mut [u8],
    ends: &mut [u64],
    results: &mut [u8],
) -> u32
    ensures number { result ≡ page_number (page_answer index.now sequence.now numbers.now out.old ends.old) }
    ensures output { out.new ≡ page_output index.now sequence.now numbers.now out.old ends.old }
    ensures ends { ends.new ≡ page_ends index.now sequence.now numbers.now out.old ends.old }
    ensures results { results.new ≡ number_put little 8 0 (page_done (page_answer index.now sequence.now numbers.now out.old ends.old)) results.old }
{
    match pages::fetch_page(index, sequence, numbers, out, ends) {
        Ok(all) => {
            all.put(Order::Little, results, 0);
            0
        }
        Err(Stop { refusal, done }) => {
            done.put(Order::Little, results, 0);
            u32::from(refusal)
        }
    }
}

// Writes nucleic codes. The results are the sizes of both parts.
#[unsafe(no_mangle)]
pub extern "C" fn gull_time_write_nucleotides(
    codes: &[u8],
    out: &mut [u8],
    results: &mut [u8],
) -> u32
    ensures number { result ≡ write_number (write_answer codes.now (length out.old)) }
    ensures output { out.new ≡ write_output codes.now out.old }
    ensures results { results.new ≡ sizes_put (write_answer codes.now (length out.old)) results.old }
{
    match nucleotides::write_nucleotides(codes, out) {
        Ok(written) => {
            (written.two_bit as u64).put(Order::Little, results, 0);
            (written.table as u64).put(Order::Little, results, 8);
            0
        }
        Err(refused) => u32::from(refused),
    }
}
