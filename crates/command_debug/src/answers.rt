//! What the debugger answers to a line: the words that are added to those that are gathered.

ghost use Rattle.std.specs.Prelude.{◌≡◌, OnErr, OnOk, codes, if◌then◌else◌};
ghost use Rattle.debugger.specs.Session.{GoesBack, GoesOn, asked_place, next_place, previous_place, with_breaks};
ghost use Rattle.debugger.specs.Breaks.{is_set, with_break, without_break};
ghost use Rattle.command_debug.specs.Answers as spec;
ghost use Rattle.command_debug.specs.Answers.{Adds, AddsSome, TellsBoard, TellsGo, TellsMove, TellsOneLine, TellsRequest};

use crate::gathered::Gathered;
use crate::requests::{Request, request_of};
use debugger::{Break, DebugFault, Debugger};
use plan_text::board_text;
use status_table::Reversible;
use std::alloc::{AllocError, Global};

/// Adds the line of a move that was refused.
fn add_refusal(told: &mut Gathered, fault: DebugFault) -> Result<(), AllocError>
    ensures adds { OnOk result (Adds told.old told.new (spec.refusal_line fault)) }
    ensures kept { OnErr result (told.new ≡ told.old) }
{
    told.add_refusal(fault.name())
}

/// Adds the line of a move among so many places; without memory there is none.
fn add_move(
    told: &mut Gathered,
    moved: Result<usize, DebugFault>,
    last: usize,
) -> Result<(), AllocError>
    ensures is { OnOk result (spec.IsMove moved) }
    ensures adds { OnOk result (Adds told.old told.new (spec.move_line last moved)) }
    ensures kept { OnErr result (told.new ≡ told.old) }
{
    match moved {
        Ok(place) => told.add_place(place, last),
        Err(DebugFault::Memory) => Err(AllocError),
        Err(fault) => add_refusal(told, fault),
    }
}

/// Adds what is told of a step on.
fn add_step<M: Reversible>(
    told: &mut Gathered,
    debugger: &mut Debugger<M>,
) -> Result<(), AllocError>
    ensures adds { OnOk result (AddsSome
        (λ words. TellsMove debugger.old (next_place debugger.old) words debugger.new) told.old told.new) }
    ensures kept { OnErr result (told.new ≡ told.old) }
{
    let last = debugger.last_place();
    add_move(told, debugger.step(), last)
}

/// Adds what is told of a step back.
fn add_back<M: Reversible>(
    told: &mut Gathered,
    debugger: &mut Debugger<M>,
) -> Result<(), AllocError>
    ensures adds { OnOk result (AddsSome
        (λ words. TellsMove debugger.old (previous_place debugger.old) words debugger.new)
        told.old told.new) }
    ensures kept { OnErr result (told.new ≡ told.old) }
{
    let last = debugger.last_place();
    add_move(told, debugger.back(), last)
}

/// Adds what is told of a move to a place.
fn add_goto<M: Reversible>(
    told: &mut Gathered,
    debugger: &mut Debugger<M>,
    place: u64,
) -> Result<(), AllocError>
    ensures adds { OnOk result (AddsSome
        (λ words. TellsMove debugger.old (asked_place debugger.old place) words debugger.new)
        told.old told.new) }
    ensures kept { OnErr result (told.new ≡ told.old) }
{
    let last = debugger.last_place();
    add_move(told, debugger.goto(place as usize), last)
}

/// Adds what is told of a move to the nearest later break.
fn add_go<M: Reversible>(told: &mut Gathered, debugger: &mut Debugger<M>) -> Result<(), AllocError>
    ensures adds { OnOk result (AddsSome
        (λ words. TellsGo GoesOn debugger.old words debugger.new) told.old told.new) }
    ensures kept { OnErr result (told.new ≡ told.old) }
{
    let last = debugger.last_place();
    add_move(told, debugger.go(), last)
}

/// Adds what is told of a move to the nearest earlier break.
fn add_go_back<M: Reversible>(
    told: &mut Gathered,
    debugger: &mut Debugger<M>,
) -> Result<(), AllocError>
    ensures adds { OnOk result (AddsSome
        (λ words. TellsGo GoesBack debugger.old words debugger.new) told.old told.new) }
    ensures kept { OnErr result (told.new ≡ told.old) }
{
    let last = debugger.last_place();
    add_move(told, debugger.go_back(), last)
}

/// Adds the board at the place.
fn add_board<M: Reversible>(
    alloc: Global,
    told: &mut Gathered,
    debugger: &Debugger<M>,
) -> Result<(), AllocError>
    ensures adds { OnOk result (AddsSome
        (λ words. TellsBoard debugger.now words debugger.now) told.old told.new) }
    ensures kept { OnErr result (told.new ≡ told.old) }
{
    let shown = board_text(alloc, debugger.lend())?;
    told.add(shown.as_bytes())
}

/// Sets a break, and adds what is told of it.
fn add_set<M: Reversible>(
    told: &mut Gathered,
    debugger: &mut Debugger<M>,
    wanted: Break,
) -> Result<(), AllocError>
    ensures set { OnOk result
        (debugger.new ≡ with_breaks debugger.old (with_break wanted debugger.old.breaks)) }
    ensures adds { OnOk result (Adds told.old told.new (codes "break set\n")) }
    ensures kept { OnErr result (told.new ≡ told.old) }
{
    debugger.set_break(wanted)?;
    told.add(b"break set\n")
}

/// Clears a break, and adds what is told of it.
fn add_clear<M: Reversible>(
    told: &mut Gathered,
    debugger: &mut Debugger<M>,
    wanted: Break,
) -> Result<(), AllocError>
    ensures left { debugger.new
        ≡ with_breaks debugger.old (without_break wanted debugger.old.breaks) }
    ensures adds { OnOk result (Adds told.old told.new
        (if is_set wanted debugger.old.breaks then codes "cleared\n" else codes "no such break\n")) }
    ensures kept { OnErr result (told.new ≡ told.old) }
{
    if debugger.clear_break(&wanted) {
        return told.add(b"cleared\n");
    }
    told.add(b"no such break\n")
}

/// Does what is asked for, and adds what is told of it.
fn add_request<M: Reversible>(
    alloc: Global,
    told: &mut Gathered,
    debugger: &mut Debugger<M>,
    request: Request,
) -> Result<(), AllocError>
    ensures adds { OnOk result (AddsSome
        (λ words. TellsRequest debugger.old request words debugger.new) told.old told.new) }
    ensures kept { OnErr result (told.new ≡ told.old) }
{
    match request {
        Request::Step => add_step(told, debugger),
        Request::Back => add_back(told, debugger),
        Request::GoTo(place) => add_goto(told, debugger, place),
        Request::Go => add_go(told, debugger),
        Request::GoBack => add_go_back(told, debugger),
        Request::Show => add_board(alloc, told, debugger),
        Request::Set(wanted) => add_set(told, debugger, wanted),
        Request::Clear(wanted) => add_clear(told, debugger, wanted),
    }
}

/// Adds that a line is no command.
fn add_unknown(told: &mut Gathered) -> Result<(), AllocError>
    ensures adds { OnOk result (Adds told.old told.new (codes "unknown command\n")) }
    ensures kept { OnErr result (told.new ≡ told.old) }
{
    told.add(b"unknown command\n")
}

/// Does what a line asks for, and adds what is told of it. Where there is no memory nothing is added.
pub(crate) fn add_line<M: Reversible>(
    alloc: Global,
    told: &mut Gathered,
    debugger: &mut Debugger<M>,
    line: &[u8],
) -> Result<(), AllocError>
    ensures adds { OnOk result (AddsSome
        (λ words. TellsOneLine debugger.old line.now words debugger.new) told.old told.new) }
    ensures kept { OnErr result (told.new ≡ told.old) }
{
    match request_of(line) {
        Some(request) => add_request(alloc, told, debugger, request),
        None => add_unknown(told),
    }
}
