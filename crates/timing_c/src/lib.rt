// The timing calls, exported for the benchmark and the tests alone. Each is the library's call, with its clauses.
#![tactic(auto)]

ghost use Rattle.std.specs.Prelude.{◌≡◌, length};
ghost use Rattle.fields.specs.Number.{little};
ghost use Rattle.fields.specs.Written.{number_put};
ghost use Rattle.dsqdata.specs.Check.{set_number};
ghost use Rattle.sequence.specs.Sequence.{decode_answer, decode_output, decode_number};
ghost use Rattle.pages.specs.Page.{page_answer, page_output, page_ends, page_number, page_done};
ghost use Rattle.nucleotides.specs.Write.{write_answer, write_output, write_number};
ghost use Rattle.timing.specs.Calls.{timed_set, set_results, sizes_put};

// Checks a set: its index, metadata and sequence file. The results are the ten header fields, and the number of the byte order.
#[unsafe(no_mangle)]
pub extern "C" fn gull_time_check_set(
    index: &[u8],
    metadata: &[u8],
    sequence: &[u8],
    results: &mut [u8],
) -> u32
    ensures number { result ≡ set_number (timed_set index.now metadata.now sequence.now (length results.old)) }
    ensures results { results.new ≡ set_results (timed_set index.now metadata.now sequence.now (length results.old)) results.old }
{
    timing::gull_time_check_set(index, metadata, sequence, results)
}

// Decodes the sequence of a number. There is no results range: the caller knows L from the index.
#[unsafe(no_mangle)]
pub extern "C" fn gull_time_decode(
    index: &[u8],
    sequence: &[u8],
    number: u64,
    out: &mut [u8],
) -> u32
    ensures number { result ≡ decode_number (decode_answer index.now sequence.now number (length out.old)) }
    ensures output { out.new ≡ decode_output index.now sequence.now number out.old }
{
    timing::gull_time_decode(index, sequence, number, out)
}

// Fetches a page. The results are how many items were done, on a refusal too.
#[unsafe(no_mangle)]
pub extern "C" fn gull_time_fetch_page(
    index: &[u8],
    sequence: &[u8],
    numbers: &[u64],
    out: &mut [u8],
    ends: &mut [u64],
    results: &mut [u8],
) -> u32
    ensures number { result ≡ page_number (page_answer index.now sequence.now numbers.now out.old ends.old) }
    ensures output { out.new ≡ page_output index.now sequence.now numbers.now out.old ends.old }
    ensures ends { ends.new ≡ page_ends index.now sequence.now numbers.now out.old ends.old }
    ensures results { results.new ≡ number_put little 8 0 (page_done (page_answer index.now sequence.now numbers.now out.old ends.old)) results.old }
{
    timing::gull_time_fetch_page(index, sequence, numbers, out, ends, results)
}

// Writes nucleic codes. The results are the sizes of both parts.
#[unsafe(no_mangle)]
pub extern "C" fn gull_time_write_nucleotides(
    codes: &[u8],
    out: &mut [u8],
    results: &mut [u8],
) -> u32
    ensures number { result ≡ write_number (write_answer codes.now (length out.old)) }
    ensures output { out.new ≡ write_output codes.now out.old }
    ensures results { results.new ≡ sizes_put (write_answer codes.now (length out.old)) results.old }
{
    timing::gull_time_write_nucleotides(codes, out, results)
}
