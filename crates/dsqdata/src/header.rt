// The fields of a set's files, and the rules of the files, of the header fields and of the lengths that they state.
ghost use Rattle.std.specs.Prelude.{◌≡◌, ◌≤◌, IfOk};
ghost use Rattle.answers.specs.Limits.{checked_by};
ghost use Rattle.dsqdata.specs.Header.{set_order, record_of, bytes_after_header};
ghost use Rattle.dsqdata.specs.Check.{size_rules, start_rules, tag_rules, file_rules, count_rules, layout_rules};

use crate::ends::ENDS;
use crate::{Files, SetRecord};
use answers::{MOST_BYTES, Refusal};
use fields::{Order, read};

// The most sequences of a set.
const MOST_SEQUENCES: u64 = 134217728;

// The bytes of the index before its ends, and of the other files before their bodies.
const INDEX_HEADER: usize = 52;

pub(crate) const FILE_HEADER: usize = 8;

// What every file of a set begins with, in its byte order.
const MAGIC: u32 = 0xc4d3d1b1;

// The byte order of a set, by its index.
#[tactic(auto, unfolding(crate::specs::Header::set_order))]
pub(crate) fn order_of(index: &[u8]) -> Order
    ensures { result ≡ set_order index.now }
{
    if read::<u32>(Order::Big, index, 0) == MAGIC {
        return Order::Big;
    }
    Order::Little
}

// All ten header fields of an index, in an order.
pub(crate) fn read_record(order: Order, index: &[u8]) -> SetRecord
    ensures { result ≡ record_of order index.now }
{
    SetRecord {
        magic: read(order, index, 0),
        tag: read(order, index, 4),
        alphabet: read(order, index, 8),
        flags: read(order, index, 12),
        longest_name: read(order, index, 16),
        longest_accession: read(order, index, 20),
        longest_description: read(order, index, 24),
        longest_sequence: read(order, index, 28),
        count: read(order, index, 36),
        residues: read(order, index, 44),
        order,
    }
}

// The bytes of a metadata or sequence file after its header.
pub(crate) fn bytes_after_header(file: &[u8]) -> usize
    ensures { result ≡ bytes_after_header file.now }
{
    file.len().saturating_sub(FILE_HEADER)
}

// The rule of the files' sizes.
#[tactic(auto, unfolding(crate::specs::Check::size_rules))]
fn check_sizes(files: &Files) -> Result<(), Refusal>
    ensures { result ≡ checked_by (size_rules files.now.index.now files.now.metadata.now files.now.sequence.now) }
{
    if files.index.len() > MOST_BYTES
        || files.metadata.len() > MOST_BYTES
        || files.sequence.len() > MOST_BYTES
    {
        return Err(Refusal::TooLarge);
    }
    Ok(())
}

// The rules of a file's start: its least size and its magic.
#[tactic(auto, unfolding(crate::specs::Check::start_rules))]
fn check_start(order: Order, file: &[u8], least: usize) -> Result<(), Refusal>
    ensures { result ≡ checked_by (start_rules order least file.now) }
{
    if file.len() < least {
        return Err(Refusal::TooShort);
    }
    if read::<u32>(order, file, 0) != MAGIC {
        return Err(Refusal::WrongMagic);
    }
    Ok(())
}

// The rule of the three tags.
#[tactic(auto, unfolding(crate::specs::Check::tag_rules))]
fn check_tags(order: Order, files: &Files) -> Result<(), Refusal>
    ensures { result ≡ checked_by (tag_rules order files.now.index.now files.now.metadata.now files.now.sequence.now) }
{
    let tag = read::<u32>(order, files.index, 4);
    if read::<u32>(order, files.metadata, 4) != tag
        || read::<u32>(order, files.sequence, 4) != tag
    {
        return Err(Refusal::TagsDiffer);
    }
    Ok(())
}

// The rules of the files: sizes; then file by file; tags.
#[tactic(auto, using(crate::proofs::Chain::parts), unfolding(crate::specs::Check::file_rules))]
pub(crate) fn check_files(order: Order, files: &Files) -> Result<(), Refusal>
    ensures { result ≡ checked_by (file_rules order files.now.index.now files.now.metadata.now files.now.sequence.now) }
{
    check_sizes(files)?;
    check_start(order, files.index, INDEX_HEADER)?;
    check_start(order, files.metadata, FILE_HEADER)?;
    check_start(order, files.sequence, FILE_HEADER)?;
    check_tags(order, files)
}

// The rules of a count, and of the index length against it.
#[tactic(auto, unfolding(crate::specs::Check::count_rules))]
pub(crate) fn check_count(index: &[u8], count: u64) -> Result<(), Refusal>
    ensures value { result ≡ checked_by (count_rules count index.now) }
    ensures few { IfOk result (λ _. count ≤ 134217728) }
{
    if count > MOST_SEQUENCES {
        return Err(Refusal::OutOfRange);
    }
    let size = INDEX_HEADER + ENDS * (count as usize);
    if index.len() < size {
        return Err(Refusal::TooShort);
    }
    if index.len() > size {
        return Err(Refusal::Leftover);
    }
    Ok(())
}

// The rules of the header fields and of the lengths that they state.
#[tactic(auto, using(crate::proofs::Chain::parts), unfolding(crate::specs::Check::layout_rules, crate::specs::Check::header_rules, crate::specs::Check::body_rules))]
pub(crate) fn check_layout(files: &Files, set: SetRecord) -> Result<(), Refusal>
    requires { set ≡ record_of set.order files.now.index.now }
    ensures { result ≡ checked_by (layout_rules set.order files.now.index.now files.now.sequence.now) }
{
    if !residues::is_alphabet(set.alphabet) {
        return Err(Refusal::WrongKind);
    }
    if set.flags != 0 {
        return Err(Refusal::OutOfRange);
    }
    check_count(files.index, set.count)?;
    if bytes_after_header(files.sequence) % 4 != 0 {
        return Err(Refusal::TooShort);
    }
    Ok(())
}
