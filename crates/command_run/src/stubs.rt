//! The programs that stand for actions.

ghost use Rattle.std.specs.Prelude.{[]};
ghost use Rattle.serde_json.specs.View.{view as json_view, members_view};
ghost use Rattle.command_io.specs.Contexts.{Gives};
ghost use Rattle.command_run.specs.Stubs as spec;

use command_io::contexts::{ContextsFault, Unread};
use command_io::error::{CommandError, contexts_error};
use command_io::files::Content;
use flow_model::{Mapping, Text, read_json};
use std::alloc::Global;
use std::collections::BTreeMap;

/// The program that stands for an action.
fn stub_of(json: serde_json::Value) -> Result<Text, Unread>
    ensures { Gives (λ program. program) result (spec.stub_of (json_view json)) }
{
    match json {
        serde_json::Value::String(program) => Ok(Text::new(program)),
        serde_json::Value::Null
        | serde_json::Value::Bool(_)
        | serde_json::Value::Number(_)
        | serde_json::Value::Array(_)
        | serde_json::Value::Object(_) => Err(Unread::Fault(ContextsFault::WrongShape)),
    }
}

/// The stubs among the members of an object.
fn stubs_of(
    alloc: Global,
    members: BTreeMap<String, serde_json::Value>,
) -> Result<Mapping<Text>, Unread>
    ensures { Gives (λ stubs. stubs) result (spec.stubs_with [] (members_view members.entries)) }
{
    let mut stubs = Mapping::empty(alloc);
    for (key, json) in members {
        let program = stub_of(json)?;
        stubs.insert(Text::new(key), program)?;
    }
    Ok(stubs)
}

/// The stubs of a document.
fn document_stubs(alloc: Global, json: serde_json::Value) -> Result<Mapping<Text>, Unread>
    ensures { Gives (λ stubs. stubs) result (spec.document_stubs (json_view json)) }
{
    match json {
        serde_json::Value::Object(members) => stubs_of(alloc, members),
        serde_json::Value::Null
        | serde_json::Value::Bool(_)
        | serde_json::Value::Number(_)
        | serde_json::Value::String(_)
        | serde_json::Value::Array(_) => Err(Unread::Fault(ContextsFault::WrongShape)),
    }
}

/// The stubs that the bytes of a file give: a program for each of some actions, by the text of its `uses`.
fn file_stubs(alloc: Global, bytes: &[u8]) -> Result<Mapping<Text>, Unread>
    ensures { Gives (λ stubs. stubs) result (spec.file_stubs bytes.now) }
{
    match read_json(alloc, bytes)? {
        Some(json) => document_stubs(alloc, json),
        None => Err(Unread::Fault(ContextsFault::NotJson)),
    }
}

/// The stubs that a file gives, or why it gives none.
pub(crate) fn stubs_of_file(alloc: Global, file: &Content) -> Result<Mapping<Text>, CommandError>
    ensures { spec.HasStubs file.now result }
{
    match file_stubs(alloc, file.bytes()) {
        Ok(stubs) => Ok(stubs),
        Err(Unread::Fault(fault)) => Err(contexts_error(alloc, file.name(), fault)),
        Err(Unread::Memory) => Err(CommandError::Memory),
    }
}
