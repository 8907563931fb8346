//! The marks of expressions in a text.

ghost use Rattle.std.specs.Prelude.{◌≡◌, ℕ, Bool, false, MatchOption, length, ◌≤◌, take, drop, None, Some, ◌+◌};
ghost use Rattle.expr_reader.specs.Template.{begins_mark as begins_mark_of, begins_end as begins_end_of, open_after as open_after_of, has_marker as has_marker_of, end_place as end_place_of};
ghost use Rattle.expr_reader.specs.TemplateReading.{mark_place as mark_place_of};

/// Whether `${{` stands at the front.
pub(crate) fn begins_mark(bytes: &[u8]) -> bool
    ensures { result ≡ begins_mark_of bytes.now }
{
    bytes.starts_with(b"${{")
}

// Whether `}}` stands at the front.
fn begins_end(bytes: &[u8]) -> bool
    ensures { result ≡ begins_end_of bytes.now }
{
    bytes.starts_with(b"}}")
}

// Whether a quote is open after a byte.
fn open_after(quoted: bool, byte: u8) -> bool
    ensures { result ≡ open_after_of quoted byte }
{
    if byte == b'\'' { !quoted } else { quoted }
}

// What follows the bytes before a place.
fn tail(bytes: &[u8], place: usize) -> &[u8]
    requires { place ≤ length bytes.now }
    ensures { result.now ≡ drop place bytes.now }
{
    &bytes[place..]
}

// How many bytes stand before the first `${{`, or before the end.
#[tactic(auto, using(crate::proofs::MarkPlaces::mark_here, crate::proofs::MarkPlaces::mark_further))]
fn mark_place(bytes: &[u8]) -> usize
    ensures { result ≡ mark_place_of bytes.now }
{
    for place in 0..bytes.len() {
        if begins_mark(tail(bytes, place)) {
            return place;
        }
    }
    bytes.len()
}

// How many bytes stand before the first `}}` outside quotes, if there is one.
#[tactic(auto, using(crate::proofs::MarkPlaces::end_begin, crate::proofs::MarkPlaces::end_here, crate::proofs::MarkPlaces::end_further))]
fn end_place(bytes: &[u8]) -> Option<usize>
    ensures { result ≡ end_place_of false bytes.now }
{
    let mut quoted = false;
    for (place, byte) in bytes.iter().enumerate() {
        if !quoted && begins_end(tail(bytes, place)) {
            return Some(place);
        }
        quoted = open_after(quoted, *byte);
    }
    None
}

/// Whether `${{`, the marker of an expression, stands anywhere in the text.
#[tactic(auto, using(crate::proofs::MarkPlaces::has_marker_by_place))]
pub fn has_marker(text: &str) -> bool
    ensures { result ≡ has_marker_of text.now }
{
    mark_place(text.as_bytes()) < text.len()
}

/// The text before the first `${{`, and the rest from it on.
#[tactic(auto, using(crate::proofs::MarkPlaces::mark_boundary))]
pub(crate) fn split_mark(text: &str) -> (&str, &str)
    ensures front { result.0.now ≡ take (mark_place_of text.now) text.now }
    ensures back { result.1.now ≡ drop (mark_place_of text.now) text.now }
{
    let place = mark_place(text.as_bytes());
    text.split_at(place)
}

/// The text before the first `}}` outside quotes, and the rest after it.
#[tactic(auto, using(crate::proofs::MarkPlaces::end_boundary, crate::proofs::MarkPlaces::end_past))]
pub(crate) fn split_end(text: &str) -> Option<(&str, &str)>
    ensures { MatchOption result
        (end_place_of false text.now ≡ None)
        (λ x. (n : ℕ) × (end_place_of false text.now ≡ Some n)
        × (x.0.now ≡ take n text.now) × (x.1.now ≡ drop (n + 2) text.now)) }
{
    let place = end_place(text.as_bytes())?;
    let (inside, rest) = text.split_at(place);
    let (_, rest) = rest.split_at(2);
    Some((inside, rest))
}
