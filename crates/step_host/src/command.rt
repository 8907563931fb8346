//! The command that starts a program.

ghost use Rattle.std.specs.Prelude.{◌≡◌, [], ◌++◌, ℕ, List, None, Some, true, IfOk, OnOk, drop, if◌then◌else◌};
ghost use Rattle.std.specs.Str.{bytes_eq};
ghost use Rattle.std.specs.Process.{SameDir, SameEnv, SameProgramAndArgs, clears_env, command_args, command_dir, command_program, command_var};
ghost use Rattle.step_host.specs.Program as spec;

use crate::launch::Launch;
use flow_model::{Mapping, Text};
use std::alloc::{AllocError, Global};
use std::process::Command;

/// The first of some words.
fn first_word(words: &[Text]) -> &str
    ensures { result.now ≡ spec.first_word words.now }
{
    match words {
        [word, ..] => word.as_str(),
        [] => "",
    }
}

/// The words after the first.
fn other_words(words: &[Text]) -> &[Text]
    ensures { result.now ≡ drop 1 words.now }
{
    match words {
        [_, others @ ..] => others,
        [] => words,
    }
}

/// Adds arguments.
fn add_arguments(command: &mut Command, words: &[Text]) -> Result<(), AllocError>
    ensures program { OnOk result
        (command_program command.new ≡ command_program command.old) }
    ensures arguments { OnOk result
        (command_args command.new ≡ command_args command.old ++ words.now) }
    ensures variables { OnOk result (SameEnv command.old command.new) }
    ensures folder { OnOk result (SameDir command.old command.new) }
{
    for word in words {
        command.arg(word.as_str())?;
    }
    Ok(())
}

/// Sets a variable.
#[tactic(auto, using(crate::proofs::Variables::var_set))]
fn set_variable(command: &mut Command, name: &str, value: &str) -> Result<(), AllocError>
    ensures variables { OnOk result ((k : List ℕ) → command_var command.new k
        ≡ (if bytes_eq k name.now then Some (Some value.now) else command_var command.old k)) }
    ensures call { OnOk result (SameProgramAndArgs command.old command.new) }
    ensures alone { OnOk result (clears_env command.new ≡ clears_env command.old) }
    ensures folder { OnOk result (SameDir command.old command.new) }
{
    command.env(name, value)?;
    Ok(())
}

/// Sets variables.
fn set_variables(command: &mut Command, variables: &Mapping<Text>) -> Result<(), AllocError>
    ensures variables { OnOk result ((k : List ℕ) → command_var command.new k
        ≡ spec.said_after (command_var command.old k) k variables.now) }
    ensures call { OnOk result (SameProgramAndArgs command.old command.new) }
    ensures alone { OnOk result (clears_env command.new ≡ clears_env command.old) }
    ensures folder { OnOk result (SameDir command.old command.new) }
{
    let from = variables.iter();
    for (name, value) in from {
        set_variable(command, name.as_str(), value.as_str())?;
    }
    Ok(())
}

/// The command of a program in a folder, with no variables, and as yet without arguments.
fn bare_command(alloc: Global, program: &str, folder: &str) -> Result<Command, AllocError>
    ensures program { IfOk result (λ c. command_program c ≡ program.now) }
    ensures arguments { IfOk result (λ c. command_args c ≡ []) }
    ensures alone { IfOk result (λ c. clears_env c ≡ true) }
    ensures variables { IfOk result (λ c. (k : List ℕ) → command_var c k ≡ None) }
    ensures folder { IfOk result (λ c. command_dir c ≡ Some folder.now) }
{
    let mut command = Command::new(alloc, program)?;
    command.env_clear();
    command.current_dir(folder)?;
    Ok(command)
}

/// The command that starts a program over the variables of the base.
pub(crate) fn command_of(
    alloc: Global,
    base: &Mapping<Text>,
    launch: &Launch,
) -> Result<Command, AllocError>
    ensures { IfOk result (λ c. spec.IsCommandOf base.now launch.now c) }
{
    let words = launch.words.as_slice();
    let own = &launch.variables;
    let mut command = bare_command(alloc, first_word(words), launch.folder.as_str())?;
    add_arguments(&mut command, other_words(words))?;
    set_variables(&mut command, base)?;
    set_variables(&mut command, own)?;
    Ok(command)
}
