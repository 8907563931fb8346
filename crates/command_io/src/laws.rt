//! What holds of every record of a play, of every source, and of every error: each is the contract of a function that does nothing.

ghost use Rattle.std.specs.Prelude.{◌≡◌, ◌≤◌, IsTrue, List, Some};
ghost use Rattle.std.specs.List.{list_all};
ghost use Rattle.flow_model.specs.Rules.{IsPlan};
ghost use Rattle.flow_model.specs.declared.board.Board.{Board};
ghost use Rattle.flow_model.specs.declared.event.Entry.{Entry};
ghost use Rattle.flow_model.specs.declared.plan.Plan.{Plan};
ghost use Rattle.plan_documents.specs.EntryDocument.{is_entry};
ghost use Rattle.status_table.specs.Runs.{after};
ghost use Rattle.command_io.specs.CommandError.{line};
ghost use Rattle.command_io.specs.Pictures.{IsPlainLine};
ghost use Rattle.command_io.specs.PlayStop.{stop_line};
ghost use Rattle.command_io.specs.declared.error.CommandError.{CommandError as CommandErrorOf};
ghost use Rattle.command_io.specs.declared.stop.PlayStop.{PlayStop as PlayStopOf};

use crate::stream::Source;
use flow_model::laws::rules_hold;

/// Each entry of a legal list is in the ranges of an entry's document: its worker is one of 16, its run, job or leg has a number
/// that a document may have, and so has the code of its answer. So the record of a play loads as the same plan and entries.
pub fn legal_entries_are_in_range()
    ensures { (p : Plan) → IsPlan p → (es : List Entry) (b : Board)
        → after p es ≡ Some b → IsTrue (list_all is_entry es) }
{
    rules_hold();
}

/// Whatever a command did with a source, the reader of it was asked for bytes no more often than it may be.
pub fn reads_are_bounded<S: Source>(source: &S)
    ensures { S.reads source.now ≤ S.most }
{
    let _read = source;
}

/// What is said of an error, or of why a play stopped, is one line without a control character but for its end, whatever bytes
/// the name of a file in it has.
#[tactic(auto, using(crate::proofs::ErrorLines::one_line, crate::proofs::ErrorLines::one_stop_line))]
pub fn errors_are_one_line()
    ensures errors { (error : CommandErrorOf) → IsPlainLine (line error) }
    ensures stops { (stop : PlayStopOf) → IsPlainLine (stop_line stop) }
{}
