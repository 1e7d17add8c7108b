// The console's record walker, and the label of a sequence.
#![tactic(auto)]

ghost use Rattle.std.specs.Prelude.{◌≡◌, ◌≤◌};
ghost use Rattle.laws.specs.Signed.{to_nat};
ghost use Rattle.answers.specs.Limits.{checked_by};
ghost use Rattle.volume.specs.Tables.{offset_at};
ghost use Rattle.labels.specs.Walker.{step_of};
ghost use Rattle.labels.specs.Label.{label_in, own_rules, offsets_label, label_of, label_number, label_part, label_place};

use answers::Refusal;
use elements::Span;
use fields::Order;

// A walker's place: a record's start and end in the header file, and the number of its titles already given.
#[derive(Clone, Copy)]
pub struct Place {
    pub start: u64,
    pub end: u64,
    pub given: u64,
}

// The record walker keeps the header file and its place together.
#[derive(Drop)]
pub struct Walker<'a> {
    pub header: &'a [u8],
    pub place: Place,
}

// What a step gives: the next title, or the refusal, and the place after it.
#[derive(Clone, Copy)]
pub struct Step {
    pub answer: Result<Span, Refusal>,
    pub after: Place,
}

// A walker over a header file at a place.
pub fn begin_walk<'a>(header: &'a [u8], start: u64, end: u64, given: u64) -> Walker<'a>
    ensures { (result.header ≡ header.entry) × (result.place.start ≡ start) × (result.place.end ≡ end) × (result.place.given ≡ given) }
{
    Walker {
        header,
        place: Place { start, end, given },
    }
}

// One step of a walker: the next title of its record, and the place after it.
#[tactic(auto, using(deflines::proofs::Count::title_bound), unfolding(crate::specs::Walker::step_of))]
pub fn step_on<'a>(w: Walker<'a>) -> Step
    ensures { result ≡ step_of w.entry.header.now w.entry.place.start w.entry.place.end w.entry.place.given }
{
    let place = w.place;
    match deflines::title(w.header, place.start, place.end, place.given) {
        Ok(t) => Step {
            answer: Ok(t),
            after: Place {
                given: place.given + 1,
                ..place
            },
        },
        Err(r) => Step {
            answer: Err(r),
            after: place,
        },
    }
}

// The same step for callers that hold no walker.
pub fn next_title(header: &[u8], start: u64, end: u64, given: u64) -> Step
    ensures { result ≡ step_of header.now start end given }
{
    step_on(begin_walk(header, start, end, given))
}

// Where a label stands: a part of the header file, or of the index.
#[derive(Clone, Copy)]
pub enum Label {
    InHeader(Span),
    InIndex(Span),
}

// The label of a record: its first def-line's title, or the volume title of a length.
fn label_in(title: usize, first: Option<Span>) -> Label
    ensures { result ≡ label_in title first }
{
    match first {
        Some(t) => Label::InHeader(t),
        None => Label::InIndex(Span {
            start: 12,
            len: title,
        }),
    }
}

// The place that a signed number states; 0 for a negative one.
fn stated(z: i32) -> u64
    ensures { result ≡ to_nat z }
{
    z.max(0) as u64
}

// A sequence's own two header offsets.
fn check_own(size: usize, low: i32, high: i32) -> Result<(), Refusal>
    ensures { result ≡ checked_by (own_rules size low high) }
{
    if low < 0 || high < low || size < high as usize {
        return Err(Refusal::BadOffsets);
    }
    Ok(())
}

// The label of the record between two header offsets.
#[tactic(auto, unfolding(crate::specs::Label::offsets_label))]
fn offsets_label(header: &[u8], title: usize, low: i32, high: i32) -> Result<Label, Refusal>
    ensures { result ≡ offsets_label header.now title low high }
{
    check_own(header.len(), low, high)?;
    let first = deflines::first_title(header, stated(low), stated(high))?;
    Ok(label_in(title, first))
}

// Header offset k of the table at a place of the index.
#[tactic(auto, unfolding(volume::specs::Tables::offset_at))]
fn header_offset(index: &[u8], table: usize, k: usize) -> i32
    requires { (table ≤ 2147483647) × (k ≤ 2147483648) }
    ensures { result ≡ offset_at index.now table k }
{
    fields::read(Order::Big, index, table + 4 * k)
}

// Where the label of a sequence stands, by its number.
#[tactic(auto, using(crate::proofs::Labels::index_read), unfolding(crate::specs::Label::label_of))]
pub fn find_label(index: &[u8], header: &[u8], number: u64) -> Result<Label, Refusal>
    ensures { result ≡ label_of index.now header.now number }
{
    if answers::MOST_BYTES < header.len() {
        return Err(Refusal::TooLarge);
    }
    let x = volume::read_index(index)?;
    if (x.sequences as u64) <= number {
        return Err(Refusal::NoSuchSequence);
    }
    let i = number as usize;
    let low = header_offset(index, x.header_table, i);
    let high = header_offset(index, x.header_table, i + 1);
    offsets_label(header, x.title_length, low, high)
}

// The number of the label call: 0, or the refusal's.
pub fn label_number(index: &[u8], header: &[u8], number: u64) -> u32
    ensures { result ≡ label_number (label_of index.now header.now number) }
{
    match find_label(index, header, number) {
        Ok(_) => 0,
        Err(r) => u32::from(r),
    }
}

// The part of the label call: a part of the header file or of the index; on a refusal the empty start of the index.
pub fn label_part<'a>(index: &'a [u8], header: &'a [u8], number: u64) -> &'a [u8]
    ensures part { result.now ≡ label_part index.now header.now (label_of index.now header.now number) }
    ensures place { result.ref_ptr ≡ label_place index.entry.ref_ptr header.entry.ref_ptr (label_of index.now header.now number) }
{
    match find_label(index, header, number) {
        Ok(Label::InHeader(t)) => &header[t.start..t.start + t.len],
        Ok(Label::InIndex(t)) => &index[t.start..t.start + t.len],
        Err(_) => &index[0..0],
    }
}
