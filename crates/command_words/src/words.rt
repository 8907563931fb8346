//! The command line: which command its words ask for, and what it leaves.

ghost use Rattle.std.specs.Prelude.{IfErr};
ghost use Rattle.std.specs.IoError.{error_kind};
ghost use Rattle.command_run.specs.Growing.{HasGrown};
ghost use Rattle.command_run.specs.StepLogs.{files_of};
ghost use Rattle.command_words.specs.Words as spec;
ghost use Rattle.command_words.specs.Words.{RunTells};

use crate::asked::{Asked, AskedReplay, AskedWhy, Shown, asked_by};
use crate::folder::Folder;
use crate::known::known_commands;
use clap::{ArgMatches, Error};
use command_debug::debug::debug;
use command_graph::graph::graph;
use command_io::error::CommandError;
use command_io::files::NamedSource;
use command_io::stream::{LineSource, Sink, Source};
use command_io::tell::refuse;
use command_print::changes::replay_changes;
use command_print::eval::{AskedEval, eval};
use command_print::lint::lint;
use command_print::list::list;
use command_print::plan::{AskedPlan, plan};
use command_print::replay::{replay, replay_settled};
use command_print::table::table;
use command_run::machine::Machine;
use command_run::run::{AskedRun, run as run_plan};
use command_timeline::timeline::timeline;
use command_why::why::why;
use std::alloc::Global;
use std::env::Args;
use std::io;
use std::io::ErrorKind;
use std::sync::Wait;
use std::thread::Threads;

/// What a command is told of, and what it tells: the lines of its input, its output, and its errors.
#[derive(Drop)]
pub struct Streams<I, O, E> {
    pub input: I,
    pub out: O,
    pub err: E,
}

/// Runs `eval`.
fn perform_eval<S: Source + Drop, O: Sink, E: Sink>(
    alloc: Global,
    mut asked: AskedEval<'_, S>,
    out: &mut O,
    err: &mut E,
) -> u8
    ensures { spec.RunsEval (O.seen out.old) (O.seen out.new)
        (E.seen err.old) (E.seen err.new) result }
{
    eval(alloc, &mut asked, out, err)
}

/// Runs `plan`.
fn perform_plan<R: Source + Drop, S: Source + Drop, O: Sink, E: Sink>(
    alloc: Global,
    mut asked: AskedPlan<R>,
    mut flows: Vec<NamedSource<S>>,
    out: &mut O,
    err: &mut E,
) -> u8
    ensures { spec.RunsPlan (O.seen out.old) (O.seen out.new)
        (E.seen err.old) (E.seen err.new) result }
{
    plan(alloc, &mut asked, flows.as_mut_slice(), out, err)
}

/// Runs `list`.
fn perform_list<S: Source + Drop, O: Sink, E: Sink>(
    alloc: Global,
    mut flows: Vec<NamedSource<S>>,
    out: &mut O,
    err: &mut E,
) -> u8
    ensures { spec.RunsList (O.seen out.old) (O.seen out.new)
        (E.seen err.old) (E.seen err.new) result }
{
    list(alloc, flows.as_mut_slice(), out, err)
}

/// Runs `lint`.
fn perform_lint<S: Source + Drop, O: Sink, E: Sink>(
    alloc: Global,
    mut flows: Vec<NamedSource<S>>,
    out: &mut O,
    err: &mut E,
) -> u8
    ensures { spec.RunsLint (O.seen out.old) (O.seen out.new)
        (E.seen err.old) (E.seen err.new) result }
{
    lint(alloc, flows.as_mut_slice(), out, err)
}

/// Runs `replay`.
fn perform_replay<S: Source + Drop, O: Sink, E: Sink>(
    alloc: Global,
    asked: AskedReplay<S>,
    out: &mut O,
    err: &mut E,
) -> u8
    ensures { spec.RunsReplay (O.seen out.old) (O.seen out.new)
        (E.seen err.old) (E.seen err.new) result }
{
    let AskedReplay { mut record, shown } = asked;
    match shown {
        Shown::Board => replay(alloc, &mut record, out, err),
        Shown::Settled => replay_settled(alloc, &mut record, out, err),
        Shown::Changes => replay_changes(alloc, &mut record, out, err),
    }
}

/// Runs `graph`.
fn perform_graph<S: Source + Drop, O: Sink, E: Sink>(
    alloc: Global,
    mut text: S,
    out: &mut O,
    err: &mut E,
) -> u8
    ensures { spec.RunsGraph (O.seen out.old) (O.seen out.new)
        (E.seen err.old) (E.seen err.new) result }
{
    graph(alloc, &mut text, out, err)
}

/// Runs `timeline`.
fn perform_timeline<S: Source + Drop, O: Sink, E: Sink>(
    alloc: Global,
    mut record: S,
    out: &mut O,
    err: &mut E,
) -> u8
    ensures { spec.RunsTimeline (O.seen out.old) (O.seen out.new)
        (E.seen err.old) (E.seen err.new) result }
{
    timeline(alloc, &mut record, out, err)
}

/// Runs `why`.
fn perform_why<S: Source + Drop, O: Sink, E: Sink>(
    alloc: Global,
    asked: AskedWhy<S>,
    out: &mut O,
    err: &mut E,
) -> u8
    ensures { spec.RunsWhy (O.seen out.old) (O.seen out.new)
        (E.seen err.old) (E.seen err.new) result }
{
    let AskedWhy { mut record, wanted } = asked;
    why(alloc, &mut record, wanted, out, err)
}

/// Runs `run`.
fn perform_run<
    M: Machine + Threads + Wait + Sync,
    T: Source + Drop,
    S: Source + Drop,
    O: Sink,
    E: Sink,
>(alloc: Global, machine: &M, mut asked: AskedRun<'_, T, S>, out: &mut O, err: &mut E) -> u8
    ensures { spec.RunsRun (HasGrown M.Growing.holds) M.writes (files_of M.logs M.Log.seen) M.paths
        (O.seen out.old) (O.seen out.new) (E.seen err.old) (E.seen err.new) result }
{
    run_plan(alloc, machine, &mut asked, out, err)
}

/// Runs `debug` over the lines of the input.
fn perform_debug<S: Source + Drop, I: LineSource, O: Sink, E: Sink>(
    alloc: Global,
    mut record: S,
    input: &mut I,
    out: &mut O,
    err: &mut E,
) -> u8
    ensures { spec.RunsDebug (I.seen input.old) (I.seen input.new) (O.seen out.old) (O.seen out.new)
        (E.seen err.old) (E.seen err.new) result }
{
    debug(alloc, &mut record, input, out, err)
}

/// Runs the command that is asked for.
fn perform<M: Machine + Threads + Wait + Sync, S: Source + Drop, I: LineSource, O: Sink, E: Sink>(
    alloc: Global,
    machine: &M,
    asked: Asked<'_, S>,
    streams: &mut Streams<I, O, E>,
) -> u8
    ensures { RunTells (HasGrown M.Growing.holds) M.writes (files_of M.logs M.Log.seen) M.paths
        (I.seen streams.old.input) (I.seen streams.new.input)
        (O.seen streams.old.out) (O.seen streams.new.out)
        (E.seen streams.old.err) (E.seen streams.new.err) result }
{
    let (out, err) = (&mut streams.out, &mut streams.err);
    match asked {
        Asked::Table => table(alloc, &mut streams.input, out, err),
        Asked::Eval(asked) => perform_eval(alloc, asked, out, err),
        Asked::Plan(asked, flows) => perform_plan(alloc, asked, flows, out, err),
        Asked::List(flows) => perform_list(alloc, flows, out, err),
        Asked::Lint(flows) => perform_lint(alloc, flows, out, err),
        Asked::Replay(asked) => perform_replay(alloc, asked, out, err),
        Asked::Graph(text) => perform_graph(alloc, text, out, err),
        Asked::Timeline(record) => perform_timeline(alloc, record, out, err),
        Asked::Why(asked) => perform_why(alloc, asked, out, err),
        Asked::Run(asked) => perform_run(alloc, machine, asked, out, err),
        Asked::Debug(record) => perform_debug(alloc, record, &mut streams.input, out, err),
    }
}

/// Why words are none that the program knows: there is no memory, or they ask for no command.
fn words_error(error: &Error) -> CommandError {
    if matches!(error.kind(), clap::error::ErrorKind::OutOfMemory) {
        return CommandError::Memory;
    }
    CommandError::Words
}

/// The words, as far as the program knows them.
fn known_words<'w>(alloc: Global, words: &'w [String]) -> Result<ArgMatches<'w>, CommandError> {
    let Ok(known) = known_commands(alloc) else {
        return Err(CommandError::Memory);
    };
    match known.try_get_matches_from(words) {
        Ok(known) => Ok(known),
        Err(error) => Err(words_error(&error)),
    }
}

/// Runs the command that known words ask for.
fn run_known<F: Folder, I: LineSource, O: Sink, E: Sink>(
    alloc: Global,
    words: &ArgMatches,
    folder: &F,
    streams: &mut Streams<I, O, E>,
) -> u8
    ensures { RunTells (HasGrown F.Machine.Growing.holds) F.Machine.writes
        (files_of F.Machine.logs F.Machine.Log.seen) F.Machine.paths
        (I.seen streams.old.input) (I.seen streams.new.input)
        (O.seen streams.old.out) (O.seen streams.new.out)
        (E.seen streams.old.err) (E.seen streams.new.err) result }
{
    match asked_by(alloc, words, folder) {
        Ok(asked) => perform(alloc, folder.machine(), asked, streams),
        Err(error) => refuse(&mut streams.err, &error),
    }
}

/// Runs the command that the words ask for, of which the first names the program; `folder` has the files that they may
/// name. The answer is the exit status.
pub fn run<F: Folder, I: LineSource, O: Sink, E: Sink>(
    alloc: Global,
    words: &[String],
    folder: &F,
    streams: &mut Streams<I, O, E>,
) -> u8
    ensures { RunTells (HasGrown F.Machine.Growing.holds) F.Machine.writes
        (files_of F.Machine.logs F.Machine.Log.seen) F.Machine.paths
        (I.seen streams.old.input) (I.seen streams.new.input)
        (O.seen streams.old.out) (O.seen streams.new.out)
        (E.seen streams.old.err) (E.seen streams.new.err) result }
{
    match known_words(alloc, words) {
        Ok(known) => run_known(alloc, &known, folder, streams),
        Err(error) => refuse(&mut streams.err, &error),
    }
}

/// Why the words of a command line cannot be had: they are no UTF-8, or there is no memory.
fn refuse_line<E: Sink>(err: &mut E, error: io::Error) -> u8
    ensures { spec.SaysLine (error_kind error) (E.seen err.old) (E.seen err.new) result }
{
    match error.kind() {
        ErrorKind::InvalidData => refuse(err, &CommandError::Words),
        ErrorKind::OutOfMemory => refuse(err, &CommandError::Memory),
        _ => refuse(err, &CommandError::Io),
    }
}

/// Runs the command that a command line asks for, as it was read. One that is no UTF-8 asks for none. The answer is the
/// exit status.
pub fn run_line<F: Folder, I: LineSource, O: Sink, E: Sink>(
    alloc: Global,
    line: io::Result<Args>,
    folder: &F,
    streams: &mut Streams<I, O, E>,
) -> u8
    ensures tells { RunTells (HasGrown F.Machine.Growing.holds) F.Machine.writes
        (files_of F.Machine.logs F.Machine.Log.seen) F.Machine.paths
        (I.seen streams.old.input) (I.seen streams.new.input)
        (O.seen streams.old.out) (O.seen streams.new.out)
        (E.seen streams.old.err) (E.seen streams.new.err) result }
    ensures unread { IfErr line (λ e. spec.TellsLine (error_kind e)
        (O.seen streams.old.out) (O.seen streams.new.out)
        (E.seen streams.old.err) (E.seen streams.new.err) result) }
{
    match line {
        Ok(words) => {
            let words: Vec<String> = match words.collect(alloc) {
                Ok(words) => words,
                Err(_) => return refuse(&mut streams.err, &CommandError::Memory),
            };
            run(alloc, words.as_slice(), folder, streams)
        },
        Err(error) => refuse_line(&mut streams.err, error),
    }
}
