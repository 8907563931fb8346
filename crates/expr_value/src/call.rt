//! Calls of functions.

ghost use Rattle.std.specs.Prelude.{◌≡◌, codes, map};
ghost use Rattle.expr_value.specs.Answer.{Gives};
ghost use Rattle.expr_value.specs.Functions.{called, format_of, from_json as from_json_of, join_of, status_of, to_json as to_json_of, with_one, with_two};
ghost use Rattle.expr_value.specs.Searching.{finds as finds_of};
ghost use Rattle.expr_value.specs.Seen.{item_seen};
ghost use Rattle.flow_model.specs.Value.{view};

use crate::format::format;
use crate::item::Item;
use crate::join::join;
use crate::json_text::{from_json, to_json};
use crate::search::{SearchPlace, finds};
use crate::status::Status;
use crate::text::text_of_kind;
use expr_reader::Function;
use flow_model::{Node, ValueFault};
use std::alloc::Global;

// A call of `contains`, `startsWith` or `endsWith`.
fn call_finds(alloc: Global, place: SearchPlace, arguments: &[Item<'_>]) -> Result<Node, ValueFault>
    ensures { Gives view result (with_two (finds_of place) (map item_seen arguments.now)) }
{
    match arguments {
        [item, value] => Ok(Node::Truth(finds(alloc, place, item, value)?)),
        [] | [_] | [_, _, _, ..] => Ok(Node::Null),
    }
}

// A call of `format`.
fn call_format(alloc: Global, arguments: &[Item<'_>]) -> Result<Node, ValueFault>
    ensures { Gives view result (format_of (map item_seen arguments.now)) }
{
    match arguments {
        [] => Ok(Node::Null),
        [item, rest @ ..] => {
            let text = text_of_kind(alloc, item.kind())?;
            format(alloc, text.as_str(), rest)
        },
    }
}

// A call of `join`.
fn call_join(alloc: Global, arguments: &[Item<'_>]) -> Result<Node, ValueFault>
    ensures { Gives view result (join_of (map item_seen arguments.now)) }
{
    match arguments {
        [item] => join(alloc, item.node(), ","),
        [item, separator] => {
            let separator = text_of_kind(alloc, separator.kind())?;
            join(alloc, item.node(), separator.as_str())
        },
        [] | [_, _, _, ..] => Ok(Node::Null),
    }
}

// A call of `toJSON`.
fn call_to_json(alloc: Global, arguments: &[Item<'_>]) -> Result<Node, ValueFault>
    ensures { Gives view result (with_one to_json_of (map item_seen arguments.now)) }
{
    match arguments {
        [item] => to_json(alloc, item),
        [] | [_, _, ..] => Ok(Node::Null),
    }
}

// A call of `fromJSON`.
fn call_from_json(alloc: Global, arguments: &[Item<'_>]) -> Result<Node, ValueFault>
    ensures { Gives view result (with_one from_json_of (map item_seen arguments.now)) }
{
    match arguments {
        [item] => {
            let text = text_of_kind(alloc, item.kind())?;
            from_json(alloc, text.as_str())
        },
        [] | [_, _, ..] => Ok(Node::Null),
    }
}

// A call of a status function, whose test holds or not.
fn call_status(holds: bool, arguments: &[Item<'_>]) -> Result<Node, ValueFault>
    ensures { Gives view result (status_of holds (map item_seen arguments.now)) }
{
    match arguments {
        [] => Ok(Node::Truth(holds)),
        [_, ..] => Ok(Node::Null),
    }
}

/// The value of a call with the values of its arguments. It is null where their number is none that the function
/// takes.
pub(crate) fn call(
    alloc: Global,
    function: Function,
    status: Status,
    arguments: &[Item<'_>],
) -> Result<Node, ValueFault>
    ensures { Gives view result (called function status (map item_seen arguments.now)) }
{
    match function {
        Function::Contains => call_finds(alloc, SearchPlace::Anywhere, arguments),
        Function::StartsWith => call_finds(alloc, SearchPlace::Front, arguments),
        Function::EndsWith => call_finds(alloc, SearchPlace::End, arguments),
        Function::Format => call_format(alloc, arguments),
        Function::Join => call_join(alloc, arguments),
        Function::ToJson => call_to_json(alloc, arguments),
        Function::FromJson => call_from_json(alloc, arguments),
        Function::Success => call_status(status.is_success(), arguments),
        Function::Failure => call_status(status.is_failure(), arguments),
        Function::Cancelled => call_status(status.is_cancelled(), arguments),
        Function::Always => call_status(true, arguments),
    }
}
