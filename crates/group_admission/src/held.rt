//! Who holds a name and who waits for it.

ghost use Rattle.std.specs.Prelude.{◌≡◌, Some, None, option_and_then};
ghost use Rattle.group_admission.specs.Content as spec;

use crate::member::{is_member, same_member};
use flow_model::Member;

/// The holder of a name, and its waiter, if there is one. A name that nobody holds has no waiter.
#[derive(Clone, Copy)]
pub struct Held {
    pub holder: Member,
    pub waiter: Option<Member>,
}

/// A name that nobody held, once a member came.
pub(crate) fn first(member: Member) -> Held
    ensures { result ≡ record { holder = member; waiter = None } }
{
    Held {
        holder: member,
        waiter: None,
    }
}

/// A name that is held, once a further member came: it waits, in the place of who waited.
pub(crate) fn joined(held: Held, member: Member) -> Held
    ensures { result ≡ record { holder = held.holder; waiter = Some member } }
{
    Held {
        holder: held.holder,
        waiter: Some(member),
    }
}

/// What is left of a name after a member released it: the waiter holds it, if there is one.
fn released(held: Held, member: Member) -> Option<Held>
    ensures { result ≡ spec.released member held }
{
    if !same_member(member, held.holder) {
        return Some(held);
    }
    match held.waiter {
        Some(waiter) => Some(Held {
            holder: waiter,
            waiter: None,
        }),
        None => None,
    }
}

/// What is left of a name after a member left its wait.
fn withdrawn(held: Held, member: Member) -> Option<Held>
    ensures { result ≡ spec.withdrawn member held }
{
    if is_member(member, held.waiter) {
        return Some(Held {
            holder: held.holder,
            waiter: None,
        });
    }
    Some(held)
}

/// What is left of a name after a member left it: what it held is passed on, and its wait has ended.
fn left(held: Held, member: Member) -> Option<Held>
    ensures { result ≡ spec.left_by member held }
{
    if same_member(member, held.holder) {
        return released(held, member);
    }
    withdrawn(held, member)
}

/// What is left of a name, if somebody holds it, after a member left it.
pub(crate) fn left_at(held: Option<Held>, member: Member) -> Option<Held>
    ensures { result ≡ option_and_then (spec.left_by member) held }
{
    match held {
        Some(held) => left(held, member),
        None => None,
    }
}

/// What is left of a name, if somebody holds it, after a member released it.
pub(crate) fn released_at(held: Option<Held>, member: Member) -> Option<Held>
    ensures { result ≡ option_and_then (spec.released member) held }
{
    match held {
        Some(held) => released(held, member),
        None => None,
    }
}

/// What is left of a name, if somebody holds it, after a member left its wait.
pub(crate) fn withdrawn_at(held: Option<Held>, member: Member) -> Option<Held>
    ensures { result ≡ option_and_then (spec.withdrawn member) held }
{
    match held {
        Some(held) => withdrawn(held, member),
        None => None,
    }
}
