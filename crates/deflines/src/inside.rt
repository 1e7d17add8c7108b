// The elements inside a list, from left to right.
ghost use Rattle.std.specs.Prelude.{◌≡◌, ◌+◌, ◌≤◌, length};
ghost use Rattle.std.specs.Iterator.{YieldsFirst, item_count};
ghost use Rattle.deflines.specs.Fields.{next_at, elements_left, elements_in};

use elements::Form;

// The places of the elements from a place on, up to the list's end.
#[derive(Drop)]
pub(crate) struct Elements<'a> {
    s: &'a [u8],
    at: usize,
}

impl<'a> Iterator for Elements<'a> {
    type Item = usize;

    ghost next_gives = { YieldsFirst (λ e. elements_left e.s.now e.at) };

    ghost remaining = { item_count (λ e. elements_left e.s.now e.at) };

    fn next(&mut self) -> Option<usize> {
        let at = self.at;
        self.at = next_element(self.s, at)?;
        Some(at)
    }
}

// The elements inside the list at a place, whose first two bytes are 30 80.
pub(crate) fn elements_in<'a>(s: &'a [u8], list: usize) -> Elements<'a>
    requires { list ≤ length s.now + 2 }
    ensures { elements_left result.s.now result.at ≡ elements_in s.now list }
{
    Elements { s, at: list + 2 }
}

// Where the element at a place of a list ends; none where the list does.
#[tactic(auto, unfolding(crate::specs::Fields::next_at))]
fn next_element(s: &[u8], p: usize) -> Option<usize>
    ensures { result ≡ next_at s.now p }
{
    if elements::closes_at(s, p) {
        return None;
    }
    elements::element(s, p, Form::Any).ok()
}
