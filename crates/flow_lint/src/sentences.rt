//! What is said of faults, and what to write instead.

use crate::kind::NodeKind;
use crate::node::Node;
use expr_reader::ExprFault;
use flow_model::is_id;
use flow_reader::FlowFault;
use matrix_expand::MatrixFault;
use std::alloc::{AllocError, Global};

/// What is said of bytes that are no JSON.
pub(crate) fn json_sentence(alloc: Global) -> Result<String, AllocError> {
    String::from_str(alloc, "this is no JSON: write JSON, or make it of YAML")
}

/// What may stand at a place.
fn wanted(kind: NodeKind) -> &'static str {
    match kind {
        NodeKind::Workflow
        | NodeKind::Job
        | NodeKind::Step
        | NodeKind::Strategy
        | NodeKind::Matrix => "an object",
        NodeKind::Defaults | NodeKind::Scripts => "an object",
        NodeKind::Jobs => "an object of at least one job",
        NodeKind::Steps => "a list of steps",
        NodeKind::Needs => "an id, or a list of ids",
        NodeKind::Triggers => "the name of an event, a list of names, or an object",
        NodeKind::Env | NodeKind::With =>
            "an object of texts, whole numbers, truth values and null",
        NodeKind::Variable | NodeKind::Input => "a text, a whole number, a truth value or null",
        NodeKind::Outputs => "an object of texts",
        NodeKind::Group => "a text, or an object with `group`",
        NodeKind::Flag | NodeKind::Condition => "a text or a truth value",
        NodeKind::FailFast => "`true` or `false`",
        NodeKind::MaxParallel => "a whole number from 1",
        NodeKind::Values => "a list of values",
        NodeKind::Entries => "a list of objects",
        _ => "a text",
    }
}

/// What is said of a step that has more than one thing to do, or of another value of the wrong kind.
fn shape_sentence(alloc: Global, node: &Node) -> Result<String, AllocError> {
    if node.kind == NodeKind::Step && node.value.is_object() {
        return String::from_str(
            alloc,
            "this step has both `run` and `uses`: take one of them out",
        );
    }
    format!(in alloc;
        "this is of another kind than is read here: write {}",
        wanted(node.kind)
    )
}

/// What is said of a value of the wrong kind, or that nests too deep.
fn misshapen(alloc: Global, node: Option<&Node>) -> Result<String, AllocError> {
    match node {
        Some(node) => shape_sentence(alloc, node),
        None => String::from_str(
            alloc,
            "this is of another kind than is read here, or nests more than 100 deep",
        ),
    }
}

/// What is said of a key that is missing.
fn missing(alloc: Global, key: &str) -> Result<String, AllocError> {
    if key == "run" {
        return String::from_str(
            alloc,
            "this step has neither `run` nor `uses`: write one of them",
        );
    }
    format!(in alloc; "`{key}` is missing here: write it")
}

/// What is said of a name that is none, or stands twice.
fn misnamed(alloc: Global, node: Option<&Node>, name: &str) -> Result<String, AllocError> {
    if node.is_some_and(|node| node.kind == NodeKind::Variable) {
        return format!(in alloc; "`{name}` names no variable: a name is not empty and has no `=`");
    }
    if is_id(name) {
        return format!(in alloc; "another step of the job has the id `{name}`: rename one");
    }
    format!(in alloc;
        "`{name}` is no id: begin with a letter or `_`, go on with letters, digits, `-` and `_`"
    )
}

/// What is said of a key that is left out.
fn left_out(alloc: Global, key: &str) -> Result<String, AllocError> {
    match key {
        "container" | "services" => format!(in alloc; "`{key}` is left out: take the key out"),
        "uses" => String::from_str(
            alloc,
            "reusable workflows are left out: put the steps in the place of `uses`",
        ),
        _ => String::from_str(
            alloc,
            "an expression is left out here: write the values that it would have",
        ),
    }
}

/// What is said of a fault for which a file stands for no workflow.
pub(crate) fn flow_sentence(
    alloc: Global,
    node: Option<&Node>,
    fault: &FlowFault,
) -> Result<String, AllocError> {
    match fault {
        FlowFault::NotJson | FlowFault::Memory => json_sentence(alloc),
        FlowFault::NotWhole => String::from_str(
            alloc,
            "a number has a fraction or an exponent, or is out of range: write a text, in quotes",
        ),
        FlowFault::Missing(key) => missing(alloc, key.as_str()),
        FlowFault::WrongShape(_) => misshapen(alloc, node),
        FlowFault::BadId(name) => misnamed(alloc, node, name.as_str()),
        FlowFault::LeftOut(key) => left_out(alloc, key.as_str()),
        FlowFault::UnknownShell => String::from_str(
            alloc,
            "a shell is `sh` or `bash`: write one of them, or take the key out",
        ),
    }
}

/// What to write in the place of a fault in an expression.
fn text_advice(fault: ExprFault) -> &'static str {
    match fault {
        ExprFault::UnclosedText(_) => "the text that begins there has no closing quote: close it",
        ExprFault::BadNumber(_) => "no whole number in range stands there: write one, or a text",
        ExprFault::BadChar(_) =>
            "nothing begins so: texts stand in single quotes, and `==` compares",
        ExprFault::Unexpected(_) => "something else is wanted there: look at what stands before it",
        ExprFault::UnknownName(_) => "no context has that name: texts stand in single quotes",
        ExprFault::UnknownFunction(_) => "there is no function of that name here",
        ExprFault::ArgumentCount(_) => "the function takes another number of arguments",
        ExprFault::TooDeep(_) => "the expression nests more than 50 deep: part it",
        ExprFault::TooLong(_) => "the text is too long: part it",
        ExprFault::UnclosedTemplate(_) => "the `${{` there has no `}}`: close it",
        ExprFault::StatusHere(_) => "a status function stands in an `if` alone: ask `job.status`",
        ExprFault::Memory(_) => "no memory was left",
    }
}

/// What is said of a text that cannot be read.
pub(crate) fn text_sentence(alloc: Global, fault: ExprFault) -> Result<String, AllocError> {
    String::from_str(alloc, text_advice(fault))
}

/// What to write in the place of a matrix that has no combinations.
fn matrix_advice(fault: MatrixFault) -> &'static str {
    match fault {
        MatrixFault::EmptyVariable => "a variable has an empty list: give it a value",
        MatrixFault::NoCombination => "no combination is left: take the matrix or `exclude` out",
        MatrixFault::TooMany => "there are more than 256 combinations: split the job",
        MatrixFault::Memory => "no memory was left",
    }
}

/// What is said of a matrix that has no combinations.
pub(crate) fn matrix_sentence(alloc: Global, fault: MatrixFault) -> Result<String, AllocError> {
    String::from_str(alloc, matrix_advice(fault))
}

/// What is said of jobs, steps or legs beyond the limits.
pub(crate) fn many_sentence(alloc: Global) -> Result<String, AllocError> {
    String::from_str(
        alloc,
        "more than 256 jobs, 256 steps of a job or 4096 legs: plan fewer at once",
    )
}
