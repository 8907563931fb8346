//! Why a command has nothing to tell: the errors of all commands, the line of each and its exit status.

ghost use Rattle.std.specs.Prelude.{◌≡◌};
ghost use Rattle.command_io.specs.Stream.{Puts};
ghost use Rattle.command_io.specs.CommandError as spec;

use crate::contexts::ContextsFault;
use crate::pictured::put_shown;
use crate::stream::{Sink, put_parts};
use expr_reader::ExprFault;
use flow_model::{Text, ValueFault};
use flow_reader::FlowFault;
use itoa::Buffer;
use plan_assembler::PlanFault;
use plan_text::LoadFault;
use status_table::EventFault;
use std::alloc::{AllocError, Global};

/// The exit status of a command that did its work.
pub const DONE: u8 = 0;

/// The exit status where a run failed or was cancelled.
pub const UNSUCCESSFUL: u8 = 1;

/// The exit status where the words or a text are refused.
pub const REFUSED: u8 = 2;

/// The exit status where memory, a file or a stream fails.
pub const FAILED: u8 = 3;

/// The exit status where a run is not closed.
pub const UNCLOSED: u8 = 4;

/// Why a command has nothing to tell.
#[derive(Drop)]
pub enum CommandError {
    /// A text is no expression.
    NoExpression(ExprFault),
    /// An evaluation has a fault.
    NoValue(ValueFault),
    /// The file of that name gives no contexts.
    NoContexts(Text, ContextsFault),
    /// The file of that name stands for no workflow, or for no contexts of runs.
    NoFlow(Text, FlowFault),
    /// The workflows come to no plan.
    NotPlanned(PlanFault),
    /// The first line of a record is no plan's.
    NoPlan(LoadFault),
    /// The line with this number, from 1, is no entry.
    NoEntry(u64),
    /// The entry of the line with this number is refused.
    Refused(u64, EventFault),
    /// The words ask for no command.
    Words,
    /// A file cannot be opened, or a read or a write failed.
    Io,
    /// There is no memory.
    Memory,
}

impl From<AllocError> for CommandError {
    ghost use Rattle.command_io.specs.declared.error.CommandError.TheVariants.{Memory};

    ghost from_gives = { λ _ e. e ≡ Memory };

    fn from(_: AllocError) -> CommandError {
        CommandError::Memory
    }
}

impl CommandError {
    /// The exit status.
    pub fn status(&self) -> u8
        ensures { result ≡ spec.error_status self.now }
    {
        match self {
            CommandError::NoExpression(_) => REFUSED,
            CommandError::NoValue(_) => REFUSED,
            CommandError::NoContexts(_, _) => REFUSED,
            CommandError::NoFlow(_, _) => REFUSED,
            CommandError::NotPlanned(_) => REFUSED,
            CommandError::NoPlan(_) => REFUSED,
            CommandError::NoEntry(_) => REFUSED,
            CommandError::Refused(_, _) => REFUSED,
            CommandError::Words => REFUSED,
            CommandError::Io => FAILED,
            CommandError::Memory => FAILED,
        }
    }
}

/// That the file of that name gives no contexts.
pub fn contexts_error(alloc: Global, file: &str, fault: ContextsFault) -> CommandError
    ensures { spec.IsContextsError file.now fault result }
{
    match Text::from_str(alloc, file) {
        Ok(name) => CommandError::NoContexts(name, fault),
        Err(_) => CommandError::Memory,
    }
}

/// Says that a text is no expression, and where.
fn say_placed<S: Sink>(err: &mut S, name: &str, place: usize) -> bool
    ensures { Puts (S.seen err.old) (S.seen err.new) (spec.placed_line name.now place) result }
{
    let mut digits = Buffer::new();
    let parts = [
        "actrun: expr ",
        name,
        " at ",
        digits.format(place as u64),
        "\n",
    ];
    put_parts(err, &parts)
}

/// Says what is wrong with a text of a workflow, and where in it.
fn say_unread<S: Sink>(err: &mut S, name: &str, place: usize) -> bool
    ensures { Puts (S.seen err.old) (S.seen err.new) (spec.unread_line name.now place) result }
{
    let mut digits = Buffer::new();
    let parts = [
        "actrun: plan Expr ",
        name,
        " at ",
        digits.format(place as u64),
        "\n",
    ];
    put_parts(err, &parts)
}

/// Says the name of a file, and what is wrong with it.
fn say_named<S: Sink>(err: &mut S, file: &str, name: &str) -> bool
    ensures { Puts (S.seen err.old) (S.seen err.new) (spec.named_rest file.now name.now) result }
{
    if !put_shown(err, file) {
        return false;
    }
    put_parts(err, &[" ", name, "\n"])
}

/// Says that a file gives no contexts, or stands for no workflow. Its name is shown in one line, whatever it is.
fn say_file<S: Sink>(err: &mut S, file: &str, name: &str) -> bool
    ensures { Puts (S.seen err.old) (S.seen err.new) (spec.file_line file.now name.now) result }
{
    if !err.put(b"actrun: flow ") {
        return false;
    }
    say_named(err, file, name)
}

/// Says a name of a kind.
pub fn say_name<S: Sink>(err: &mut S, kind: &str, name: &str) -> bool
    ensures { Puts (S.seen err.old) (S.seen err.new) (spec.name_line kind.now name.now) result }
{
    let parts = ["actrun: ", kind, " ", name, "\n"];
    put_parts(err, &parts)
}

/// Says that workflows come to no plan; of a text that cannot be read, and of a matrix, it says what is wrong in it.
fn say_unplanned<S: Sink>(err: &mut S, fault: PlanFault) -> bool
    ensures { Puts (S.seen err.old) (S.seen err.new) (spec.unplanned_line fault) result }
{
    match fault {
        PlanFault::Expr(_, inner) => say_unread(err, inner.name(), inner.place()),
        PlanFault::Matrix(_, inner) => say_name(err, "plan Matrix", inner.name()),
        PlanFault::UnknownNeed
        | PlanFault::Cycle
        | PlanFault::UnknownJob
        | PlanFault::NoWorkflow
        | PlanFault::TooMany
        | PlanFault::Memory => say_name(err, "plan", fault.name()),
    }
}

/// Says what is wrong with the line of that number.
fn say_numbered<S: Sink>(err: &mut S, number: u64, name: &str) -> bool
    ensures { Puts (S.seen err.old) (S.seen err.new) (spec.numbered_line number name.now) result }
{
    let mut digits = Buffer::new();
    let parts = ["actrun: line ", digits.format(number), " ", name, "\n"];
    put_parts(err, &parts)
}

/// Says an error in one line, and answers whether it was written whole.
pub fn say<S: Sink>(err: &mut S, error: &CommandError) -> bool
    ensures { Puts (S.seen err.old) (S.seen err.new) (spec.line error.now) result }
{
    match error {
        CommandError::NoExpression(fault) => say_placed(err, fault.name(), fault.place()),
        CommandError::NoValue(fault) => say_name(err, "value", fault.name()),
        CommandError::NoContexts(file, fault) => say_file(err, file.as_str(), fault.name()),
        CommandError::NoFlow(file, fault) => say_file(err, file.as_str(), fault.name()),
        CommandError::NotPlanned(fault) => say_unplanned(err, *fault),
        CommandError::NoPlan(fault) => say_name(err, "load", fault.name()),
        CommandError::NoEntry(number) => say_numbered(err, *number, "NotEntry"),
        CommandError::Refused(number, fault) => say_numbered(err, *number, fault.name()),
        CommandError::Words => err.put(b"actrun: words\n"),
        CommandError::Io => err.put(b"actrun: io\n"),
        CommandError::Memory => err.put(b"actrun: memory\n"),
    }
}
