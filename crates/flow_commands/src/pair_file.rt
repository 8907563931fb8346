//! Files of outputs and of variables, which a step writes for the runner (workflow commands: `GITHUB_OUTPUT`,
//! `GITHUB_ENV`).

ghost use Rattle.std.specs.Prelude.{◌≡◌, ◌<◌, ◌≤◌, ◌++◌, IfOk, IfErr, OnOk, IsTrue, List, ℕ, Ok, Result, Some, [], length, string_bytes};
ghost use Rattle.std.specs.List.{list_all};
ghost use Rattle.std.specs.Option.{option_map};
ghost use Rattle.flow_commands.specs.PairFiles.{Gives, Refuses, with_kept};
ghost use Rattle.flow_commands.specs.PairFiles as spec;
ghost use Rattle.flow_commands.specs.Blocks.{Opens, added, block_value, head_seen};
ghost use Rattle.flow_commands.specs.declared.pair_file.PairFile.TheVariants as kind;
ghost use Rattle.flow_model.specs.Lines.{lines_of};
ghost use Rattle.flow_model.specs.Name as name_spec;

use crate::output_fault::OutputFault;
use crate::splits::{first_line, split_first};
use flow_model::{Answer, Mapping, Text, has_zero};
use std::alloc::{AllocError, Global};

/// A file of pairs, by what its pairs are.
#[derive(Clone, Copy)]
pub(crate) enum PairFile {
    /// Outputs of the step.
    Outputs,
    /// Variables for the steps after it.
    Env,
}

/// What a line outside a block is.
#[derive(Clone, Copy)]
pub(crate) enum Head<'t> {
    /// It is empty.
    Blank,
    /// A name and its value.
    Pair(&'t str, &'t str),
    /// A block begins: the name of its value, and its delimiter.
    Block(&'t str, &'t str),
}

/// A letter, a digit, `-` or `_`.
fn is_name_byte(byte: u8) -> bool
    ensures { result ≡ name_spec.is_name_byte byte }
{
    byte.is_ascii_alphanumeric() || byte == b'-' || byte == b'_'
}

/// Anything but `=` and the zero byte.
fn names_variable(byte: u8) -> bool
    ensures { result ≡ spec.names kind.Env byte }
{
    byte != b'=' && byte != 0
}

/// Whether all bytes may stand in a name.
fn are_names(file: PairFile, bytes: &[u8]) -> bool
    ensures { result ≡ list_all (spec.names file) bytes.now }
{
    match file {
        PairFile::Outputs => bytes.iter().all(|byte| is_name_byte(*byte)),
        PairFile::Env => bytes.iter().all(|byte| names_variable(*byte)),
    }
}

/// Whether a pair may have this name, whatever its length.
fn is_name(file: PairFile, name: &str) -> bool
    ensures { result ≡ spec.is_name file name.now }
{
    1 <= name.len() && are_names(file, name.as_bytes())
}

/// Whether a pair may have this value, whatever its length.
fn is_value(file: PairFile, value: &str) -> bool
    ensures { result ≡ spec.is_value file value.now }
{
    match file {
        PairFile::Outputs => true,
        PairFile::Env => !has_zero(value.as_bytes()),
    }
}

/// Whether a pair of this name is kept.
fn is_kept(file: PairFile, name: &str) -> bool
    ensures { result ≡ spec.is_kept file name.now }
{
    match file {
        PairFile::Outputs => true,
        PairFile::Env => !(name == "GITHUB_ENV" || name == "GITHUB_OUTPUT"),
    }
}

/// The line `name=value`.
fn named_pair<'t>(file: PairFile, name: &'t str, value: &'t str) -> Option<Head<'t>>
    ensures { option_map head_seen result ≡ spec.named_pair file (name.now, value.now) }
{
    if is_name(file, name) {
        Some(Head::Pair(name, value))
    } else {
        None
    }
}

/// The line `name<<delimiter`.
fn named_block<'t>(file: PairFile, name: &'t str, delimiter: &'t str) -> Option<Head<'t>>
    ensures { option_map head_seen result ≡ spec.named_block file (name.now, delimiter.now) }
{
    if is_name(file, name) && 1 <= delimiter.len() {
        Some(Head::Block(name, delimiter))
    } else {
        None
    }
}

/// What a line outside a block is, if it is anything.
fn read_head(file: PairFile, line: &str) -> Option<Head<'_>>
    ensures { option_map head_seen result ≡ spec.head_of file line.now }
{
    if line.is_empty() {
        return Some(Head::Blank);
    }
    if let Some((name, value)) = split_first(line, "=") {
        if split_first(name, "<<").is_none() {
            return named_pair(file, name, value);
        }
    }
    let (name, delimiter) = split_first(line, "<<")?;
    named_block(file, name, delimiter)
}

/// Adds a line to the value of a block, of which it may be the first.
fn add_line(value: &mut String, first: bool, line: &str) -> Result<(), AllocError>
    ensures { OnOk result
        (string_bytes value.new ≡ string_bytes value.old ++ added first line.now) }
{
    if !first {
        value.push_str("\n")?;
    }
    value.push_str(line)
}

/// The value of a block, from its first line on, and what follows the line that ends it.
fn read_block<'t>(
    alloc: Global,
    text: &'t str,
    delimiter: &str,
) -> Result<(Text, &'t str), OutputFault>
    ensures read { IfOk result (λ x.
        block_value delimiter.now (lines_of text.now) ≡ Some (x.0, lines_of x.1.now)) }
    ensures shorter { IfOk result (λ x. length x.1.now ≤ length text.now) }
    ensures open { IfErr result (λ fault.
        Opens fault (block_value delimiter.now (lines_of text.now))) }
{
    let mut value = String::new(alloc);
    let mut first = true;
    let mut rest = text;
    while !rest.is_empty() {
        let (line, after) = first_line(rest);
        if line == delimiter {
            return Ok((Text::new(value), after));
        }
        add_line(&mut value, first, line)?;
        first = false;
        rest = after;
    }
    Err(OutputFault::OpenBlock)
}

/// Sets a pair, if it is kept.
fn keep(
    alloc: Global,
    file: PairFile,
    name: &str,
    value: Text,
    found: &mut Mapping<Text>,
) -> Result<(), AllocError>
    ensures { OnOk result (found.new ≡ with_kept file (name.now, value) found.old) }
{
    if is_kept(file, name) {
        found.set(alloc, name, value)?;
    }
    Ok(())
}

/// Adds a pair, if its value may stand.
fn add_pair(
    alloc: Global,
    file: PairFile,
    name: &str,
    value: Text,
    found: &mut Mapping<Text>,
) -> Result<(), OutputFault>
    ensures added { OnOk result ((rest : spec.Reading)
        → spec.then_with file found.old (spec.then_pairs file (name.now, value) rest)
        ≡ spec.then_with file found.new rest) }
    ensures refused { IfErr result (λ fault. (rest : spec.Reading)
        → Refuses fault (spec.then_pairs file (name.now, value) rest)) }
{
    if !is_value(file, value.as_str()) {
        return Err(OutputFault::NoName);
    }
    Ok(keep(alloc, file, name, value, found)?)
}

/// Reads a line, and the block that begins there, if one does. What is read is set, if it is kept; what follows is handed
/// back.
fn read_item<'t>(
    alloc: Global,
    file: PairFile,
    text: &'t str,
    found: &mut Mapping<Text>,
) -> Result<&'t str, OutputFault>
    requires { 0 < length text.now }
    ensures read { IfOk result (λ rest.
        spec.then_with file found.old (spec.pairs_of file (lines_of text.now))
        ≡ spec.then_with file found.new (spec.pairs_of file (lines_of rest.now))) }
    ensures shorter { IfOk result (λ rest. length rest.now < length text.now) }
    ensures refused { IfErr result (λ fault. Refuses fault (spec.pairs_of file (lines_of text.now))) }
{
    let (line, rest) = first_line(text);
    match read_head(file, line) {
        Some(Head::Blank) => Ok(rest),
        Some(Head::Pair(name, value)) => {
            add_pair(alloc, file, name, Text::from_str(alloc, value)?, found)?;
            Ok(rest)
        },
        Some(Head::Block(name, delimiter)) => {
            let (value, rest) = read_block(alloc, rest, delimiter)?;
            add_pair(alloc, file, name, value, found)?;
            Ok(rest)
        },
        None => Err(OutputFault::NoName),
    }
}

/// The pairs of all lines that are kept; the last of one name stands.
fn read_lines(alloc: Global, file: PairFile, text: &str) -> Result<Mapping<Text>, OutputFault>
    ensures { Gives result (spec.then_with file [] (spec.pairs_of file (lines_of text.now))) }
{
    let mut found = Mapping::empty(alloc);
    let mut rest = text;
    while !rest.is_empty() {
        rest = read_item(alloc, file, rest, &mut found)?;
    }
    Ok(found)
}

/// An answer with these outputs, or with these variables.
fn answer_with(alloc: Global, file: PairFile, pairs: Mapping<Text>) -> Answer
    ensures { result ≡ spec.answer_with file pairs }
{
    let none = Mapping::empty(alloc);
    match file {
        PairFile::Outputs => Answer::Exit {
            code: 0,
            outputs: pairs,
            env: none,
        },
        PairFile::Env => Answer::Exit {
            code: 0,
            outputs: none,
            env: pairs,
        },
    }
}

/// The outputs of an answer, or its variables.
fn pairs_with(file: PairFile, answer: Answer) -> Option<Mapping<Text>>
    ensures { (pairs : List spec.Pair) → answer ≡ spec.answer_with file pairs → result ≡ Some pairs }
{
    match answer {
        Answer::Exit { outputs, env, .. } => match file {
            PairFile::Outputs => Some(outputs),
            PairFile::Env => Some(env),
        },
        Answer::NotStarted | Answer::BadOutput => None,
    }
}

/// The pairs, if an answer may have them.
fn limited(
    alloc: Global,
    file: PairFile,
    found: Mapping<Text>,
) -> Result<Mapping<Text>, OutputFault>
    ensures { result ≡ spec.limited file (Ok found) }
{
    let answer = answer_with(alloc, file, found);
    if !answer.well_formed() {
        return Err(OutputFault::TooMany);
    }
    match pairs_with(file, answer) {
        Some(found) => Ok(found),
        None => Err(OutputFault::TooMany),
    }
}

/// The pairs that the bytes of a file give.
fn read_file(alloc: Global, file: PairFile, bytes: &[u8]) -> Result<Mapping<Text>, OutputFault>
    ensures exact { Gives result (spec.pairs_in file bytes.now) }
    ensures within { IfOk result (λ found. IsTrue (spec.are_within file found)) }
{
    let Ok(text) = std::str::from_utf8(bytes) else {
        return Err(OutputFault::NotUtf8);
    };
    let found = read_lines(alloc, file, text)?;
    limited(alloc, file, found)
}

/// The outputs that the bytes of a file give: lines `name=value`, and blocks, which begin with `name<<delimiter` and end
/// with a line that is the delimiter. Empty lines are skipped, and the last of one name stands.
///
/// # Errors
///
/// The first that applies of `OutputFault::NotUtf8`, `NoName`, `OpenBlock` and `TooMany`; `Memory` where there is no
/// memory.
pub fn read_output_file(alloc: Global, bytes: &[u8]) -> Result<Mapping<Text>, OutputFault>
    ensures exact { Gives result (spec.outputs bytes.now) }
    // An answer may have them.
    ensures within { IfOk result (λ found. IsTrue (spec.are_outputs found)) }
{
    read_file(alloc, PairFile::Outputs, bytes)
}

/// The variables that the bytes of a file give, which is read as a file of outputs is. A name may have any bytes but `=` and
/// zero bytes, a value any but zero bytes. A pair with the name `GITHUB_ENV` or `GITHUB_OUTPUT` is read, and not kept.
///
/// # Errors
///
/// Those of `read_output_file`.
pub fn read_env_file(alloc: Global, bytes: &[u8]) -> Result<Mapping<Text>, OutputFault>
    ensures exact { Gives result (spec.env bytes.now) }
    // An answer may set them.
    ensures within { IfOk result (λ found. IsTrue (spec.are_variables found)) }
{
    read_file(alloc, PairFile::Env, bytes)
}
