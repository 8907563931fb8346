//! `actrun eval`: the value of an expression.

ghost use Rattle.std.specs.Prelude.{◌≡◌, IfOk, string_bytes};
ghost use Rattle.serde_json.specs.Written.{compact_text};
ghost use Rattle.expr_reader.specs.View.{view as tree_view};
ghost use Rattle.flow_model.specs.Json.{json_of as json_of_value};
ghost use Rattle.command_print.specs.Eval as spec;
ghost use Rattle.command_print.specs.Eval.{EvalTells};

use command_io::contexts::{Unread, file_contexts};
use command_io::error::{CommandError, contexts_error};
use command_io::files::NamedSource;
use command_io::stream::{Sink, Source};
use command_io::tell::{refuse_source, tell};
use expr_reader::{ExprFault, Tree, read_expr};
use expr_value::Status;
use flow_model::{Mapping, Value, ValueFault, into_json};
use std::alloc::{AllocError, Global};

/// A fault of an expression's text, or want of memory.
fn expression_error(fault: ExprFault) -> CommandError
    ensures { result ≡ spec.expression_error fault }
{
    if fault.is_memory() {
        return CommandError::Memory;
    }
    CommandError::NoExpression(fault)
}

/// The tree of an expression.
fn tree_of(alloc: Global, expression: &str) -> Result<Tree, CommandError>
    ensures { spec.IsTree expression.now result }
{
    match read_expr(alloc, expression) {
        Ok(tree) => Ok(tree),
        Err(fault) => Err(expression_error(fault)),
    }
}

/// The value of a tree over contexts.
fn value_of(alloc: Global, contexts: &Mapping<Value>, tree: &Tree) -> Result<Value, CommandError>
    ensures { spec.IsValue contexts.now (tree_view tree.now) result }
{
    match expr_value::eval(alloc, tree, contexts, Status::Success) {
        Ok(value) => Ok(value),
        Err(ValueFault::Memory) => Err(CommandError::Memory),
        Err(fault) => Err(CommandError::NoValue(fault)),
    }
}

/// The compact JSON of a value.
fn compact_json(alloc: Global, value: Value) -> Result<String, AllocError>
    ensures { IfOk result (λ text. string_bytes text ≡ compact_text (json_of_value value)) }
{
    let json = into_json(alloc, value)?;
    json.to_string(alloc)
}

/// The line of a value: its compact JSON, and a newline.
fn line_of(alloc: Global, value: Value) -> Result<String, AllocError>
    ensures { IfOk result (λ line. string_bytes line ≡ spec.value_line value) }
{
    let mut line = compact_json(alloc, value)?;
    line.push_str("\n")?;
    Ok(line)
}

/// The contexts that the bytes of the file of that name give.
fn contexts_of(alloc: Global, file: &str, bytes: &[u8]) -> Result<Mapping<Value>, CommandError>
    ensures { spec.HasContexts file.now bytes.now result }
{
    match file_contexts(alloc, bytes) {
        Ok(contexts) => Ok(contexts),
        Err(Unread::Fault(fault)) => Err(contexts_error(alloc, file, fault)),
        Err(Unread::Memory) => Err(CommandError::Memory),
    }
}

/// The line of the value of an expression over the contexts that the bytes of a file give.
fn answer(alloc: Global, file: &str, bytes: &[u8], expression: &str) -> Result<String, CommandError>
    ensures { spec.GivesValue file.now expression.now bytes.now result }
{
    let contexts = contexts_of(alloc, file, bytes)?;
    let tree = tree_of(alloc, expression)?;
    let value = value_of(alloc, &contexts, &tree)?;
    Ok(line_of(alloc, value)?)
}

/// What `eval` is asked for: the file of contexts, and an expression.
#[derive(Drop)]
pub struct AskedEval<'w, I> {
    pub contexts: NamedSource<I>,
    pub expression: &'w str,
}

/// Reads the file of contexts to its end and writes the value of an expression over them, as compact JSON and a
/// newline, to `out`; or writes why there is none to `err`, in one line that may name the file. Status functions see
/// success. The answer is the exit status.
pub fn eval<I: Source, O: Sink, E: Sink>(
    alloc: Global,
    asked: &mut AskedEval<'_, I>,
    out: &mut O,
    err: &mut E,
) -> u8
    ensures { EvalTells asked.old.contexts.name asked.old.expression.now
        (I.seen asked.old.contexts.source) (I.seen asked.new.contexts.source)
        (O.seen out.old) (O.seen out.new) (E.seen err.old) (E.seen err.new) result }
{
    match asked.contexts.source.read_all(alloc) {
        Ok(bytes) => {
            let file = asked.contexts.name.as_str();
            tell(
                answer(alloc, file, bytes.as_slice(), asked.expression),
                out,
                err,
            )
        },
        Err(fault) => refuse_source(err, fault),
    }
}
