//! The contexts that a file gives to an expression.

ghost use Rattle.std.specs.Prelude.{◌≡◌, [], Some};
ghost use Rattle.flow_model.specs.Json.{value_of};
ghost use Rattle.serde_json.specs.View.{view as json_view, members_view};
ghost use Rattle.command_io.specs.Contexts as spec;
ghost use Rattle.command_io.specs.Contexts.{Gives};

use expr_reader::Context;
use flow_model::within::is_within;
use flow_model::{JsonFault, Mapping, Text, Value, into_value, read_json};
use std::alloc::{AllocError, Global};
use std::collections::BTreeMap;
use thiserror::Error;

/// Why a file gives no contexts.
#[derive(Clone, Copy, Debug, PartialEq, Eq, Error)]
#[error("{}", self.name())]
pub enum ContextsFault {
    /// It is no JSON.
    NotJson,
    /// A number in a context is no whole number, or out of range.
    NotWhole,
    /// It is no object, or a context in it is none, or a property of one nests more than 100 deep.
    WrongShape,
}

impl ContextsFault {
    /// The fault's name, as it is printed.
    pub fn name(self) -> &'static str
        ensures { result.now ≡ spec.contexts_fault_name self }
    {
        match self {
            ContextsFault::NotJson => "NotJson",
            ContextsFault::NotWhole => "NotWhole",
            ContextsFault::WrongShape => "WrongShape",
        }
    }
}

/// Why no contexts were read: a fault of the file, or want of memory.
#[derive(Clone, Copy)]
pub enum Unread {
    Fault(ContextsFault),
    Memory,
}

impl From<AllocError> for Unread {
    ghost use Rattle.command_io.specs.declared.contexts.Unread.TheVariants.{Memory};

    ghost from_gives = { λ _ e. e ≡ Memory };

    fn from(_: AllocError) -> Unread {
        Unread::Memory
    }
}

/// Every context.
const EVERY_CONTEXT: [Context; 12] = [
    Context::Github,
    Context::Env,
    Context::Vars,
    Context::Job,
    Context::Jobs,
    Context::Steps,
    Context::Runner,
    Context::Secrets,
    Context::Strategy,
    Context::Matrix,
    Context::Needs,
    Context::Inputs,
];

/// Whether a key is exactly the name of a context.
fn is_context(key: &str) -> bool
    ensures { result ≡ spec.is_context key.now }
{
    EVERY_CONTEXT.iter().any(|context| key == context.name())
}

/// The value of a map whose properties nest at most 100 deep.
fn within_depth(value: Value) -> Result<Value, Unread>
    ensures { Gives (λ v. v) result (spec.within_depth (Some value)) }
{
    // a map is one deeper than its deepest property
    if is_within(value.node(), 101) {
        Ok(value)
    } else {
        Err(Unread::Fault(ContextsFault::WrongShape))
    }
}

/// The map of a context.
fn map_of(alloc: Global, json: serde_json::Value) -> Result<Value, Unread>
    ensures { Gives (λ v. v) result (spec.within_depth (value_of (json_view json))) }
{
    match into_value(alloc, json) {
        Ok(value) => within_depth(value),
        Err(JsonFault::NotWhole) => Err(Unread::Fault(ContextsFault::NotWhole)),
        Err(JsonFault::Memory) => Err(Unread::Memory),
    }
}

/// The map of a context.
fn context_of(alloc: Global, json: serde_json::Value) -> Result<Value, Unread>
    ensures { Gives (λ v. v) result (spec.context_of (json_view json)) }
{
    match json {
        serde_json::Value::Object(_) => map_of(alloc, json),
        serde_json::Value::Null
        | serde_json::Value::Bool(_)
        | serde_json::Value::Number(_)
        | serde_json::Value::String(_)
        | serde_json::Value::Array(_) => Err(Unread::Fault(ContextsFault::WrongShape)),
    }
}

/// The contexts among the members of an object.
fn contexts_of(
    alloc: Global,
    members: BTreeMap<String, serde_json::Value>,
) -> Result<Mapping<Value>, Unread>
    ensures { Gives (λ contexts. contexts) result
        (spec.contexts_with [] (members_view members.entries)) }
{
    let mut contexts = Mapping::empty(alloc);
    for (key, json) in members {
        if is_context(key.as_str()) {
            let value = context_of(alloc, json)?;
            contexts.insert(Text::new(key), value)?;
        }
    }
    Ok(contexts)
}

/// The contexts of a document.
fn document_contexts(alloc: Global, json: serde_json::Value) -> Result<Mapping<Value>, Unread>
    ensures { Gives (λ contexts. contexts) result (spec.document_contexts (json_view json)) }
{
    match json {
        serde_json::Value::Object(members) => contexts_of(alloc, members),
        serde_json::Value::Null
        | serde_json::Value::Bool(_)
        | serde_json::Value::Number(_)
        | serde_json::Value::String(_)
        | serde_json::Value::Array(_) => Err(Unread::Fault(ContextsFault::WrongShape)),
    }
}

/// The contexts that the bytes of a file give.
pub fn file_contexts(alloc: Global, bytes: &[u8]) -> Result<Mapping<Value>, Unread>
    ensures { Gives (λ contexts. contexts) result (spec.file_contexts bytes.now) }
{
    match read_json(alloc, bytes)? {
        Some(json) => document_contexts(alloc, json),
        None => Err(Unread::Fault(ContextsFault::NotJson)),
    }
}
