//! The commands and their words, as `clap` is told them.

use clap::{Arg, ArgAction, Command};
use std::alloc::{AllocError, Global};

/// The names of workflows' files, at least one.
fn flow_words<'a>(alloc: Global) -> Arg<'a> {
    Arg::new(alloc, "flow").required(true).num_args(1..)
}

/// The command `eval`.
fn known_eval<'a>(alloc: Global) -> Result<Command<'a>, AllocError> {
    Command::new(alloc, "eval")
        .arg(Arg::new(alloc, "contexts").long("contexts"))?
        .arg(Arg::new(alloc, "expression").required(true))
}

/// The command `plan`.
fn known_plan<'a>(alloc: Global) -> Result<Command<'a>, AllocError> {
    Command::new(alloc, "plan")
        .arg(Arg::new(alloc, "event").long("event"))?
        .arg(Arg::new(alloc, "job").long("job"))?
        .arg(Arg::new(alloc, "contexts").long("contexts"))?
        .arg(flow_words(alloc))
}

/// A command over files of workflows.
fn known_flows<'a>(alloc: Global, name: &'a str) -> Result<Command<'a>, AllocError> {
    Command::new(alloc, name).arg(flow_words(alloc))
}

/// A command over one file.
fn known_file<'a>(alloc: Global, name: &'a str, id: &'a str) -> Result<Command<'a>, AllocError> {
    Command::new(alloc, name).arg(Arg::new(alloc, id).required(true))
}

/// The command `replay`.
fn known_replay<'a>(alloc: Global) -> Result<Command<'a>, AllocError> {
    let settled = Arg::new(alloc, "settled")
        .long("settled")
        .action(ArgAction::SetTrue);
    let changes = Arg::new(alloc, "changes")
        .long("changes")
        .action(ArgAction::SetTrue);
    known_file(alloc, "replay", "record")?
        .arg(settled)?
        .arg(changes)
}

/// The command `why`.
fn known_why<'a>(alloc: Global) -> Result<Command<'a>, AllocError> {
    let json = Arg::new(alloc, "json")
        .long("json")
        .action(ArgAction::SetTrue);
    let each = Arg::new(alloc, "each")
        .long("each")
        .action(ArgAction::SetTrue);
    known_file(alloc, "why", "record")?
        .arg(json)?
        .arg(each)?
        .arg(Arg::new(alloc, "what").num_args(1..))
}

/// The command `run`.
fn known_run<'a>(alloc: Global) -> Result<Command<'a>, AllocError> {
    let workers = Arg::new(alloc, "workers")
        .long("workers")
        .value_parser(clap::value_parser!(u64));
    let progress = Arg::new(alloc, "progress")
        .long("progress")
        .action(ArgAction::SetTrue);
    Command::new(alloc, "run")
        .arg(workers)?
        .arg(Arg::new(alloc, "record").long("record"))?
        .arg(Arg::new(alloc, "times").long("times"))?
        .arg(Arg::new(alloc, "work").long("work"))?
        .arg(Arg::new(alloc, "stubs").long("stubs"))?
        .arg(progress)?
        .arg(Arg::new(alloc, "plan").required(true))
}

/// The commands with one more.
fn with<'a>(
    known: Command<'a>,
    added: Result<Command<'a>, AllocError>,
) -> Result<Command<'a>, AllocError> {
    known.subcommand(added?)
}

/// The commands, one level deep.
pub(crate) fn known_commands<'a>(alloc: Global) -> Result<Command<'a>, AllocError> {
    let known = Command::new(alloc, "actrun").subcommand_required(true);
    let known = with(known, Ok(Command::new(alloc, "table")))?;
    let known = with(known, known_eval(alloc))?;
    let known = with(known, known_plan(alloc))?;
    let known = with(known, known_flows(alloc, "list"))?;
    let known = with(known, known_flows(alloc, "lint"))?;
    let known = with(known, known_replay(alloc))?;
    let known = with(known, known_file(alloc, "graph", "file"))?;
    let known = with(known, known_file(alloc, "timeline", "record"))?;
    let known = with(known, known_why(alloc))?;
    let known = with(known, known_run(alloc))?;
    with(known, known_file(alloc, "debug", "record"))
}
