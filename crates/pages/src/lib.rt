// A page of sequences: a list of numbers fetched one after another into one output.
#![tactic(auto)]

ghost use Rattle.std.specs.Prelude.{◌≡◌, ◌≤◌, length};
ghost use Rattle.pages.specs.Page.{begun, fetch_all, page_answer, page_output, page_ends};

use answers::{MOST_BYTES, Refusal};

// Why a page stopped at an item, and how many items were done before it.
#[derive(Clone, Copy)]
pub struct Stop {
    pub refusal: Refusal,
    pub done: u64,
}

// Fetches the items of a list that has a place for each of their ends.
fn fetch_all(
    index: &[u8],
    sequence: &[u8],
    numbers: &[u64],
    out: &mut [u8],
    ends: &mut [u64],
) -> Result<u64, Stop>
    requires { length numbers.now ≤ length ends.old }
    ensures value { result ≡ (fetch_all index.now sequence.now numbers.now (begun out.old ends.old)).answer }
    ensures out_after { out.new ≡ (fetch_all index.now sequence.now numbers.now (begun out.old ends.old)).progress.output }
    ensures ends_after { ends.new ≡ (fetch_all index.now sequence.now numbers.now (begun out.old ends.old)).progress.ends }
{
    let mut filled: usize = 0;
    for (done, &number) in numbers.iter().enumerate() {
        let l = sequence::decode(index, sequence, number, &mut out[filled..]).map_err(
            |refusal| Stop {
                refusal,
                done: done as u64,
            },
        )?;
        filled += l;
        ends[done] = filled as u64;
    }
    Ok(numbers.len() as u64)
}

// Fetches the sequences of a list of numbers into the output, each behind the last, and writes where each ends. It stops at the first refusal:
// what was done before stays, and the refused item changes nothing. It answers how many sequences were fetched: all.
pub fn fetch_page(
    index: &[u8],
    sequence: &[u8],
    numbers: &[u64],
    out: &mut [u8],
    ends: &mut [u64],
) -> Result<u64, Stop>
    ensures answer { result ≡ page_answer index.now sequence.now numbers.now out.old ends.old }
    ensures output { out.new ≡ page_output index.now sequence.now numbers.now out.old ends.old }
    ensures ends { ends.new ≡ page_ends index.now sequence.now numbers.now out.old ends.old }
{
    if MOST_BYTES < index.len() || MOST_BYTES < sequence.len() {
        return Err(Stop {
            refusal: Refusal::TooLarge,
            done: 0,
        });
    }
    if ends.len() < numbers.len() {
        return Err(Stop {
            refusal: Refusal::NoRoom,
            done: 0,
        });
    }
    fetch_all(index, sequence, numbers, out, ends)
}
