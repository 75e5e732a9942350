//! How far a text follows a form.
ghost use Rattle.std.specs.Prelude.{◌≡◌, ℕ, ◌+◌, ◌*◌, ◌≤◌, [], length, IfSome};
ghost use Rattle.operator_cmds.specs.Walks.{reach as reach_lem, stop as stop_lem, text_in as text_in_lem};

use crate::places::{Place, may_begin, place_of, stands_in};

// How many bytes of the text go on in the place.
fn reach(place: Place, text: &[u8]) -> usize
    ensures value { result ≡ reach_lem place [] text.now }
    ensures within { result ≤ length text.now }
{
    let mut n = 0;
    while n < text.len() && may_begin(place, &text[..n + 1]) {
        n += 1;
    }
    n
}

/// Where a text leaves the form, none where all of it follows the form.
pub(crate) fn stop(form: &[u8], text: &[u8]) -> Option<usize>
    ensures value { result ≡ stop_lem form.now text.now }
    ensures within { IfSome result (λ n. n ≤ length text.now) }
{
    let mut at = 0;
    for letter in form {
        let place = place_of(*letter);
        let n = reach(place, &text[at..]);
        if !stands_in(place, &text[at..at + n]) {
            return Some(at + n);
        }
        at += n;
    }
    if at < text.len() { Some(at) } else { None }
}

/// The text in the place of a letter of the form.
pub(crate) fn text_in<'a>(form: &[u8], text: &'a [u8], letter: u8) -> &'a [u8]
    ensures { result.now ≡ text_in_lem form.now text.now letter }
{
    let mut at = 0;
    for place in form {
        let n = reach(place_of(*place), &text[at..]);
        if *place == letter {
            return &text[at..at + n];
        }
        at += n;
    }
    &[]
}
