//! The verb of concurrency groups, which makes the calls that the lines of the input spell, on one set of groups.
//!
//!   groups                               the answer to each line
//!
//!   enter KIND N NAME [own RUN|cancel]   the member enters the group; it is in its own run, or asks the holder to stop
//!   release KIND N                       the member gives its group up
//!   withdraw KIND N                      the member leaves the wait
//!   leave KIND N NAME                    the member leaves the group, as its holder or out of the wait
//!   holder NAME, waiting NAME            who holds the group, who waits for it
//!   copy                                 a copy takes the place of the groups
//!
//! KIND is `run` or `leg`. A name that is left out is empty.

use case_reader::members::put_member;
use case_reader::{Page, parted};
use flow_model::{Duplicate, Member};
use group_admission::{Entered, Groups};
use std::str;

/// The answers to the lines of the input.
pub fn groups(page: &mut Page<'_>) {
    let input = page.input;
    let mut groups = Groups::new(page.alloc);
    for line in str::from_utf8(input).unwrap_or("").lines() {
        answer(page, &mut groups, line);
        page.put("\n");
    }
}

/// Makes the call of a line and writes its answer.
fn answer(page: &mut Page<'_>, groups: &mut Groups, line: &str) {
    let (call, rest) = parted(line);
    let (first, rest) = parted(rest);
    let (number, rest) = parted(rest);
    let member = member(first, number);
    match call {
        "enter" => enter(page, groups, member, rest),
        "release" => put_member(page, groups.release(member)),
        "withdraw" => write!(page, "{}", groups.withdraw(member)),
        "leave" => leave(page, groups, member, rest),
        "holder" => put_member(page, groups.holder(first)),
        "waiting" => put_member(page, groups.waiting(first)),
        "copy" => copy(page, groups),
        _ => page.put("no such call"),
    }
}

/// Has a member leave the group of a name.
fn leave(page: &mut Page<'_>, groups: &mut Groups, member: Member, name: &str) {
    groups.leave_name(name, member);
    page.put("left");
}

/// Has a copy take the place of the groups.
fn copy(page: &mut Page<'_>, groups: &mut Groups) {
    if let Some(twin) = page.have(groups.copy(page.alloc)) {
        *groups = twin;
        page.put("copied");
    }
}

/// The member of that kind and number.
fn member(kind: &str, number: &str) -> Member {
    let number = number.parse::<u64>().unwrap_or(0);
    if kind == "run" {
        Member::Run(number)
    } else {
        Member::Leg(number)
    }
}

/// Enters a member that is in no group yet; the words name the group and how.
fn enter(page: &mut Page<'_>, groups: &mut Groups, member: Member, words: &str) {
    if groups.is_in_group(member) {
        return page.put("is in a group");
    }
    let (name, rest) = parted(words);
    let (how, run) = parted(rest);
    let own_run = (how == "own").then_some(run.parse::<u64>().unwrap_or(0));
    match page.have(groups.enter(name, member, own_run, how == "cancel")) {
        Some(Entered::Admitted) => page.put("admitted"),
        Some(Entered::OwnRun) => page.put("own run"),
        Some(Entered::Waiting { displaced, stopped }) => {
            page.put("waiting, displaced ");
            put_member(page, displaced);
            page.put(", stopped ");
            put_member(page, stopped);
        },
        None => {},
    }
}
