// Header records: the check of one record.
#![tactic(auto)]

ghost use Rattle.std.specs.Prelude.{◌≡◌};
ghost use Rattle.answers.specs.Limits.{checked_by};
ghost use Rattle.headers.specs.Record.{element_rules, check_record};

use answers::Refusal;
use elements::Form;

// The record from a place to the end of a slice: one element, first its nesting, then its shape.
fn check_element(s: &[u8], start: usize) -> Result<(), Refusal>
    ensures { result ≡ checked_by (element_rules s.now start) }
{
    let n = elements::element(s, start, Form::Any)?;
    if n != s.len() {
        return Err(Refusal::BadHeader);
    }
    match elements::element(s, start, Form::DefLines) {
        Ok(_) => Ok(()),
        Err(_) => Err(Refusal::BadHeader),
    }
}

// The check of the record from start up to end of a header file.
pub fn check_record(header: &[u8], start: u64, end: u64) -> Result<(), Refusal>
    ensures { result ≡ check_record header.now start end }
{
    if answers::MOST_BYTES < header.len() {
        return Err(Refusal::TooLarge);
    }
    if end < start || (header.len() as u64) < end {
        return Err(Refusal::TooShort);
    }
    check_element(&header[..end as usize], start as usize)
}
