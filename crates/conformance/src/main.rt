//! conformance: a program that plays the cases of its files and says how many agree, or where one differs.
//!
//! A case asks for a command, by the words of the command line, or for a verb. The verbs that play commands stand here, at the
//! heads of `command_sweeps`, `record_sweeps`, `debug_sweeps` and `program_calls`, and all others in libraries of their own:
//! `case_reader`, which reads the cases too, `case_workflows`, `case_boards` and `case_hosts`. The program proves nothing of its
//! own; what it wants stands in `data/`.

#![tactic(auto)]

mod command_sweeps;
mod debug_sweeps;
mod program_calls;
mod record_sweeps;
mod verbs;

use case_reader::{Case, Told};
use command_run::machine::Machine;
use std::alloc::Global;
use std::io::Write;
use std::process::ExitCode;
use std::sync::Wait;
use std::thread::Threads;
use std::{env, fs, io};
use verbs::perform;

fn main(rt: HostRuntime) -> io::Result<ExitCode> {
    let mut out = io::writer(&rt);
    let words: Vec<String> = env::args(&rt)?.collect(rt.alloc())?;
    let told = run_files(&rt, rt.alloc(), words.as_slice(), &mut out)?;
    if told.differ > 0 {
        writeln!(out, "{} cases agree, {} differ", told.agree, told.differ)?;
        return Ok(ExitCode::from(1));
    }
    writeln!(out, "{} cases agree", told.agree)?;
    Ok(ExitCode::from(0))
}

/// Plays the cases of the files that the words after the first name.
fn run_files<R: Machine + Threads + Wait + Sync + Alloc<A = Global>, O: Write>(
    rt: &R,
    alloc: Global,
    words: &[String],
    out: &mut O,
) -> io::Result<Told> {
    let mut told = Told {
        agree: 0,
        differ: 0,
    };
    for file in words.iter().skip(1) {
        let text = fs::read_to_string(rt, file.as_str())?;
        run_cases(rt, alloc, text.as_str(), &mut told, out)?;
    }
    Ok(told)
}

/// Plays the cases of a text.
fn run_cases<R: Machine + Threads + Wait + Sync, O: Write>(
    rt: &R,
    alloc: Global,
    text: &str,
    told: &mut Told,
    out: &mut O,
) -> io::Result<()> {
    let mut case = Case::new(alloc)?;
    for line in text.lines() {
        if line.is_empty() {
            end_case(rt, alloc, &mut case, told, out)?;
        } else {
            case.read_line(alloc, line)?;
        }
    }
    end_case(rt, alloc, &mut case, told, out)
}

/// Plays the case that ends, if there is one.
fn end_case<R: Machine + Threads + Wait + Sync, O: Write>(
    rt: &R,
    alloc: Global,
    case: &mut Case,
    told: &mut Told,
    out: &mut O,
) -> io::Result<()> {
    if case.end(alloc)? {
        let found = perform(rt, alloc, &case.asked());
        case.judge(&found, told, out)?;
    }
    Ok(case.begin()?)
}
