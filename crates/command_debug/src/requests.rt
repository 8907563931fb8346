//! What a line asks of the debugger.
//!
//! Words are parted by one space, numbers are digits, and nothing else stands in a line. Each reader here is exact: what it
//! finds stands in the text, and it finds nothing only where there is nothing to find.

ghost use Rattle.std.specs.Prelude.{◌≡◌, ◌≢◌, ◌++◌, List, ℕ, MatchOption};
ghost use Rattle.std.specs.List.{prefix_len};
ghost use Rattle.std.specs.Char.{is_digit};
ghost use Rattle.command_debug.specs.Requests as spec;
ghost use Rattle.command_debug.specs.Requests.{After, Asks, FindsOne, Names, Writes, WritesTwo};

use debugger::Break;

/// What a line asks for.
#[derive(Clone, Copy)]
pub(crate) enum Request {
    /// `step`: one entry on.
    Step,
    /// `back`: one entry back.
    Back,
    /// `goto K`: to that place.
    GoTo(u64),
    /// `go`: on to the nearest place where a break holds.
    Go,
    /// `go-back`: back to the nearest such place.
    GoBack,
    /// `show`: the board.
    Show,
    /// `break B`: the break is set.
    Set(Break),
    /// `clear B`: the break is cleared.
    Clear(Break),
}

/// The number that digits write; one beyond the greatest of 64 bits counts as that.
fn number_of(digits: &[u8]) -> Option<u64>
    ensures { FindsOne (Writes digits.now) result }
{
    if digits.is_empty() {
        return None;
    }
    let mut number: u64 = 0;
    for byte in digits {
        let Some(digit) = char::from(*byte).to_digit(10) else {
            return None;
        };
        number = number.saturating_mul(10).saturating_add(u64::from(digit));
    }
    Some(number)
}

/// What follows this front of a text.
fn after<'t>(text: &'t [u8], front: &[u8]) -> Option<&'t [u8]>
    ensures { MatchOption result ((rest : List ℕ) → text.now ≢ front.now ++ rest)
        (λ rest. text.now ≡ front.now ++ rest.now) }
{
    text.strip_prefix(front)
}

/// The number whose digits follow this front.
fn number_after(text: &[u8], front: &[u8]) -> Option<u64>
    ensures { FindsOne (After Writes front.now text.now) result }
{
    match after(text, front) {
        Some(digits) => number_of(digits),
        None => None,
    }
}

/// How many digits a text begins with.
fn leading_digits(text: &[u8]) -> usize
    ensures { result ≡ prefix_len (λ b. is_digit b 10) text.now }
{
    text.iter()
        .take_while(|byte| char::from(**byte).is_digit(10))
        .count()
}

/// The two numbers that a text is, parted by a space.
fn two_numbers(text: &[u8]) -> Option<(u64, u64)>
    ensures { FindsOne (WritesTwo text.now) result }
{
    let (one, rest) = text.split_at(leading_digits(text));
    match (number_of(one), number_after(rest, b" ")) {
        (Some(first), Some(second)) => Some((first, second)),
        (Some(_), None) => None,
        (None, _) => None,
    }
}

/// The two numbers that follow this front.
fn two_after(text: &[u8], front: &[u8]) -> Option<(u64, u64)>
    ensures { FindsOne (After WritesTwo front.now text.now) result }
{
    match after(text, front) {
        Some(both) => two_numbers(both),
        None => None,
    }
}

/// The break that a text names.
fn break_named(name: &[u8]) -> Option<Break>
    ensures { FindsOne (Names name.now) result }
{
    if name == b"failed".as_slice() {
        return Some(Break::Failed);
    }
    if let Some(leg) = number_after(name, b"leg ") {
        return Some(Break::Leg(leg));
    }
    if let Some(leg) = number_after(name, b"ends ") {
        return Some(Break::Ends(leg));
    }
    match two_after(name, b"step ") {
        Some((leg, step)) => Some(Break::Step(leg, step)),
        None => None,
    }
}

/// The break whose name follows this front.
fn break_after(text: &[u8], front: &[u8]) -> Option<Break>
    ensures { FindsOne (After Names front.now text.now) result }
{
    match after(text, front) {
        Some(name) => break_named(name),
        None => None,
    }
}

/// What a line asks for by one word.
fn word_asked(line: &[u8]) -> Option<Request>
    ensures { MatchOption result (spec.IsNoWord line.now) (λ request. Asks line.now request) }
{
    match line {
        [b's', b't', b'e', b'p'] => Some(Request::Step),
        [b'b', b'a', b'c', b'k'] => Some(Request::Back),
        [b'g', b'o'] => Some(Request::Go),
        [b'g', b'o', b'-', b'b', b'a', b'c', b'k'] => Some(Request::GoBack),
        [b's', b'h', b'o', b'w'] => Some(Request::Show),
        _ => None,
    }
}

/// What a line asks for, if it is a command.
pub(crate) fn request_of(line: &[u8]) -> Option<Request>
    ensures { FindsOne (Asks line.now) result }
{
    if let Some(request) = word_asked(line) {
        return Some(request);
    }
    if let Some(place) = number_after(line, b"goto ") {
        return Some(Request::GoTo(place));
    }
    if let Some(wanted) = break_after(line, b"break ") {
        return Some(Request::Set(wanted));
    }
    match break_after(line, b"clear ") {
        Some(wanted) => Some(Request::Clear(wanted)),
        None => None,
    }
}
