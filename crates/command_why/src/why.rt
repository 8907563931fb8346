//! `actrun why`: why something is as it is after a record.

ghost use Rattle.std.specs.Prelude.{◌≡◌, IfOk, List, Some, option_map};
ghost use Rattle.why_notes.specs.Account.{account_of, account_seen};
ghost use Rattle.flow_model.specs.declared.event.Entry.{Entry as EntryOf};
ghost use Rattle.command_why.specs.Why as spec;
ghost use Rattle.command_why.specs.Why.{GivesTree, GivesWhy, IsWhyAnswer, TellsWhy, WhyTells};

use crate::lines::add_lines;
use crate::objects::{add_each, add_tree_json};
use crate::parts::parts;
use crate::roots::roots;
use crate::wanted::Wanted;
use command_io::error::{CommandError, DONE, REFUSED, say_name};
use command_io::records::{load_error, stop_error};
use command_io::stream::{Sink, Source};
use command_io::tell::{put_text, refuse, refuse_source};
use flat_board::FlatBoard;
use flow_model::{CheckedPlan, Entry, Sequence};
use plan_text::load_record;
use std::alloc::{AllocError, Global};
use why_causes::question::Question;
use why_causes::tree::{Line, tree};
use why_facts::notes::Notes;
use why_notes::account::{SeenAccount, account};

/// The lines of the tree that answers what is asked of an account, if that is there.
fn tree_lines(
    alloc: Global,
    at: &SeenAccount,
    asked: Option<Question>,
) -> Result<Option<Vec<Line>>, AllocError>
    ensures { IfOk result (λ found. option_map (λ lines. lines.items) found
        ≡ spec.tree_lines (account_seen at.now) asked) }
{
    let Some(questions) = roots(alloc, at, asked)? else {
        return Ok(None);
    };
    Ok(Some(tree(alloc, at, questions.as_slice())?))
}

/// The text of that tree.
fn tree_told(
    alloc: Global,
    at: &SeenAccount,
    asked: Option<Question>,
) -> Result<Option<Vec<u8>>, AllocError>
    ensures { IfOk result (λ told. spec.bytes_of told
        ≡ spec.explained (account_seen at.now) (Wanted.Words asked)) }
{
    let Some(lines) = tree_lines(alloc, at, asked)? else {
        return Ok(None);
    };
    let mut out = Vec::new(alloc);
    add_lines(&mut out, at, lines.as_slice())?;
    Ok(Some(out))
}

/// The objects of that tree.
fn objects_told(
    alloc: Global,
    at: &SeenAccount,
    asked: Option<Question>,
) -> Result<Option<Vec<u8>>, AllocError>
    ensures { IfOk result (λ told. spec.bytes_of told
        ≡ spec.explained (account_seen at.now) (Wanted.Objects asked)) }
{
    let Some(lines) = tree_lines(alloc, at, asked)? else {
        return Ok(None);
    };
    let mut out = Vec::new(alloc);
    add_tree_json(&mut out, at, lines.as_slice())?;
    Ok(Some(out))
}

/// The object of each part.
fn each_told(alloc: Global, at: &SeenAccount) -> Result<Option<Vec<u8>>, AllocError>
    ensures { IfOk result
        (λ told. spec.bytes_of told ≡ spec.explained (account_seen at.now) Wanted.Each) }
{
    let parts = parts(alloc, at)?;
    let mut out = Vec::new(alloc);
    add_each(&mut out, at, parts.as_slice())?;
    Ok(Some(out))
}

/// The text that answers what is asked of an account, if that is there.
fn explained(alloc: Global, at: &SeenAccount, wanted: Wanted) -> Result<Option<Vec<u8>>, AllocError>
    ensures { IfOk result
        (λ told. spec.bytes_of told ≡ spec.explained (account_seen at.now) wanted) }
{
    match wanted {
        Wanted::Words(asked) => tree_told(alloc, at, asked),
        Wanted::Objects(asked) => objects_told(alloc, at, asked),
        Wanted::Each => each_told(alloc, at),
    }
}

/// The text for a plan in play and what is noted of it.
fn play_explained(
    alloc: Global,
    plan: &CheckedPlan,
    table: &FlatBoard,
    notes: &Notes,
    wanted: Wanted,
) -> Result<Option<Vec<u8>>, CommandError>
    ensures { GivesTree (record { plan = plan.now; board = table.now.board; notes = notes.now })
        wanted result }
{
    let at = SeenAccount {
        plan: plan.plan(),
        board: table.board(),
        notes,
    };
    Ok(explained(alloc, &at, wanted)?)
}

/// The text for the account of some entries.
fn play_told(
    alloc: Global,
    plan: &CheckedPlan,
    table: &FlatBoard,
    notes: &Notes,
    wanted: Wanted,
) -> Result<Option<Vec<u8>>, CommandError>
    ensures { (entries : List EntryOf) → account_of plan.now entries
        ≡ Some (record { plan = plan.now; board = table.now.board; notes = notes.now })
        → GivesWhy wanted plan.now entries result }
{
    play_explained(alloc, plan, table, notes, wanted)
}

/// The text for entries, which are played and then freed.
fn entries_explained(
    alloc: Global,
    plan: &CheckedPlan,
    entries: Sequence<Entry>,
    wanted: Wanted,
) -> Result<Option<Vec<u8>>, CommandError>
    ensures { GivesWhy wanted plan.now entries result }
{
    match account(alloc, plan, entries.as_slice()) {
        Ok((table, notes)) => {
            drop(entries);
            play_told(alloc, plan, &table, &notes, wanted)
        },
        Err((place, fault)) => Err(stop_error(place, fault)),
    }
}

/// The text for the text of a record, which is read and then freed.
fn text_explained(
    alloc: Global,
    text: Vec<u8>,
    wanted: Wanted,
) -> Result<Option<Vec<u8>>, CommandError>
    ensures { IsWhyAnswer wanted text.items (spec.answer_of result) }
{
    match load_record(alloc, text.as_slice()) {
        Ok((plan, entries)) => {
            drop(text);
            entries_explained(alloc, &plan, entries, wanted)
        },
        Err(fault) => Err(load_error(fault)),
    }
}

/// Writes a tree to `out`, or one line to `err`, and answers the status.
fn tell<O: Sink, E: Sink>(
    answer: Result<Option<Vec<u8>>, CommandError>,
    out: &mut O,
    err: &mut E,
) -> u8
    ensures { TellsWhy (spec.answer_of answer)
        (O.seen out.old) (O.seen out.new) (E.seen err.old) (E.seen err.new) result }
{
    match answer {
        Ok(Some(text)) => { put_text(text.as_slice(), DONE, out, err) },
        Ok(None) => {
            say_name(err, "why", "NoSuch");
            REFUSED
        },
        Err(error) => refuse(err, &error),
    }
}

/// Reads a record to its end, plays it, and writes to `out` why what is asked about is as it is, or, where nothing is named,
/// why all is that did not end in success: a tree of facts, each at the line of the record at which it became so, in English
/// or as objects; or the object of each part. Or it writes why there is none to `err`, in one line. The answer is the exit status: 0, or 2 where what is asked about is not
/// there.
pub fn why<I: Source, O: Sink, E: Sink>(
    alloc: Global,
    input: &mut I,
    wanted: Wanted,
    out: &mut O,
    err: &mut E,
) -> u8
    ensures { WhyTells wanted (I.seen input.old) (I.seen input.new)
        (O.seen out.old) (O.seen out.new) (E.seen err.old) (E.seen err.new) result }
{
    match input.read_all(alloc) {
        Ok(text) => tell(text_explained(alloc, text, wanted), out, err),
        Err(fault) => refuse_source(err, fault),
    }
}
