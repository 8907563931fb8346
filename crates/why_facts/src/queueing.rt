//! What a member makes so that has to wait for its group.

ghost use Rattle.std.specs.Prelude.{◌∷◌, [], OnOk};
ghost use Rattle.why_facts.specs.Adds.{Adds};
ghost use Rattle.why_facts.specs.Queues as spec;

use crate::fact::{Change, MemberFact, Teller};
use board_decisions::entrance::Entrance;
use flow_model::Member;
use std::alloc::AllocError;

/// Adds what became of a member.
pub fn add_fact(out: &mut Vec<Change>, who: Member, fact: MemberFact) -> Result<(), AllocError>
    ensures { OnOk result (Adds out.old.items out.new.items (Change.Member who fact ∷ [])) }
{
    out.push(Change::Member { who, fact })?;
    Ok(())
}

/// Adds that who waited lost its place to a member, if somebody waited.
fn add_displaced(
    out: &mut Vec<Change>,
    who: Member,
    waited: Option<Member>,
) -> Result<(), AllocError>
    ensures { OnOk result (Adds out.old.items out.new.items (spec.displaces who waited)) }
{
    match waited {
        Some(waited) => add_fact(out, waited, MemberFact::Displaced(who)),
        None => Ok(()),
    }
}

/// Adds that a member tells the holder to stop, where that is wanted.
fn add_told(
    out: &mut Vec<Change>,
    who: Member,
    wanted: bool,
    holds: Member,
) -> Result<(), AllocError>
    ensures { OnOk result (Adds out.old.items out.new.items (spec.tells who wanted holds)) }
{
    if wanted {
        out.push(Change::Stop {
            who: holds,
            teller: Teller::Newer(who),
        })?;
    }
    Ok(())
}

/// Adds what a member makes so that has to wait.
pub fn add_queued(
    out: &mut Vec<Change>,
    who: Member,
    group: &Entrance,
    holds: Member,
    waited: Option<Member>,
) -> Result<(), AllocError>
    ensures { OnOk result
        (Adds out.old.items out.new.items (spec.queues who group.now holds waited)) }
{
    add_fact(out, who, MemberFact::Waits(holds))?;
    add_displaced(out, who, waited)?;
    add_told(out, who, group.cancel, holds)
}
