//! How the program of a step is started: its words, its own variables and its folder.

ghost use Rattle.std.specs.Prelude.{◌≡◌, [], ◌∷◌, IfOk};
ghost use Rattle.flow_commands.specs.PairFiles.{with_pairs};
ghost use Rattle.step_host.specs.Program as spec;

use flow_commands::replace::{Rule, begins, replace};
use flow_commands::shell_words;
use flow_model::{Duplicate, Mapping, Sequence, Shell, StepCall, Text};
use std::alloc::{AllocError, Global};
use std::fmt::Write;

/// How a program is started: its words, the variables that it has over those of the base, and the folder in which it starts.
#[derive(Drop)]
pub(crate) struct Launch {
    pub(crate) words: Sequence<Text>,
    pub(crate) variables: Mapping<Text>,
    pub(crate) folder: Text,
}

/// The file of a step of a leg in the work folder, by how its name ends.
fn step_file(
    alloc: Global,
    work: &str,
    leg: u64,
    step: u64,
    ending: &str,
) -> Result<Text, AllocError>
    ensures { IfOk result (λ made. made ≡ spec.step_file work.now leg step ending.now) }
{
    let mut text = String::from_str(alloc, work)?;
    write!(text, "/step-{leg}-{step}{ending}")?;
    Ok(Text::new(text))
}

/// The file of what the step of a call puts out.
pub(crate) fn out_file(alloc: Global, work: &str, call: &StepCall) -> Result<Text, AllocError>
    ensures { IfOk result (λ made. made ≡ spec.out_file work.now call.now) }
{
    step_file(alloc, work, call.leg, call.step, ".out")
}

/// The file of the variables that the step of a call sets.
pub(crate) fn env_file(alloc: Global, work: &str, call: &StepCall) -> Result<Text, AllocError>
    ensures { IfOk result (λ made. made ≡ spec.env_file work.now call.now) }
{
    step_file(alloc, work, call.leg, call.step, ".env")
}

/// The file of the script of a call.
pub(crate) fn script_file(alloc: Global, work: &str, call: &StepCall) -> Result<Text, AllocError>
    ensures { IfOk result (λ made. made ≡ spec.script_file work.now call.now) }
{
    step_file(alloc, work, call.leg, call.step, ".sh")
}

/// The name that the file has at first into which the program of a call prints its standard output.
pub(crate) fn print_file(alloc: Global, work: &str, call: &StepCall) -> Result<Text, AllocError>
    ensures { IfOk result (λ made. made ≡ spec.print_file work.now call.now) }
{
    step_file(alloc, work, call.leg, call.step, ".stdout")
}

/// The name that the file has at first into which the program of a call prints its standard error.
pub(crate) fn err_file(alloc: Global, work: &str, call: &StepCall) -> Result<Text, AllocError>
    ensures { IfOk result (λ made. made ≡ spec.err_file work.now call.now) }
{
    step_file(alloc, work, call.leg, call.step, ".stderr")
}

/// The file of what a step of a leg printed, in the work folder of a `ProgramHost`.
///
/// # Errors
///
/// There is no memory.
pub fn log_file(alloc: Global, work: &str, leg: u64, step: u64) -> Result<Text, AllocError>
    ensures { IfOk result (λ made. made ≡ spec.log_file work.now leg step) }
{
    step_file(alloc, work, leg, step, ".log")
}

/// The folder in which a script starts: the work folder, or the one that is named below it.
fn folder_of(alloc: Global, work: &str, dir: &Option<Text>) -> Result<Text, AllocError>
    ensures { IfOk result (λ made. made ≡ spec.folder_of work.now dir.now) }
{
    let mut folder = String::from_str(alloc, work)?;
    if let Some(dir) = dir {
        folder.push_str("/")?;
        folder.push_str(dir.as_str())?;
    }
    Ok(Text::new(folder))
}

/// A space becomes `_`.
#[derive(Clone, Copy)]
struct Spaces;

impl Rule for Spaces {
    ghost use Rattle.step_host.specs.Program.{space_by};

    ghost rule = { λ _ t. space_by t };

    fn at(&self, text: &[u8]) -> Option<(&'static str, usize)> {
        if begins(text, " ") {
            return Some(("_", 1));
        }
        None
    }
}

/// The variable of an input: `INPUT_` and its name in large letters, with `_` for spaces.
fn input_name(alloc: Global, name: &str) -> Result<Text, AllocError>
    ensures { IfOk result (λ made. made ≡ spec.input_name name.now) }
{
    let name = replace(alloc, name, &Spaces)?;
    let mut large = String::from_str(alloc, name.as_str())?;
    large.make_ascii_uppercase();
    let mut text = String::from_str(alloc, "INPUT_")?;
    text.push_str(large.as_str())?;
    Ok(Text::new(text))
}

/// Variables, with those of inputs set over them.
fn with_inputs(
    alloc: Global,
    under: Mapping<Text>,
    given: &Mapping<Text>,
) -> Result<Mapping<Text>, AllocError>
    ensures { IfOk result (λ made. made ≡ with_pairs under (spec.inputs_of given.now)) }
{
    let from = given.iter();
    let mut made = under;
    for (name, value) in from {
        let name = input_name(alloc, name.as_str())?;
        made.insert(name, value.copy(alloc)?)?;
    }
    Ok(made)
}

/// Sets the files of a call, over all other variables.
fn with_files(
    alloc: Global,
    under: Mapping<Text>,
    work: &str,
    call: &StepCall,
) -> Result<Mapping<Text>, AllocError>
    ensures { IfOk result (λ made.
        made ≡ with_pairs under (spec.file_variables work.now call.now)) }
{
    let mut made = under;
    made.set(alloc, "GITHUB_OUTPUT", out_file(alloc, work, call)?)?;
    made.set(alloc, "GITHUB_ENV", env_file(alloc, work, call)?)?;
    Ok(made)
}

/// The variables that a program has over those of the base.
fn variables_of(
    alloc: Global,
    work: &str,
    call: &StepCall,
    given: &Mapping<Text>,
) -> Result<Mapping<Text>, AllocError>
    ensures { IfOk result (λ made. made ≡ spec.variables work.now call.now given.now) }
{
    let under = with_inputs(alloc, call.env.copy(alloc)?, given)?;
    with_files(alloc, under, work, call)
}

/// How a script is started.
pub(crate) fn script_launch(
    alloc: Global,
    work: &str,
    call: &StepCall,
    shell: Shell,
    dir: &Option<Text>,
) -> Result<Launch, AllocError>
    ensures { IfOk result (λ launch.
        launch ≡ spec.script_launch work.now call.now shell dir.now) }
{
    let file = script_file(alloc, work, call)?;
    let variables = variables_of(alloc, work, call, &Mapping::empty(alloc))?;
    Ok(Launch {
        words: shell_words(alloc, shell, file.as_str())?,
        variables,
        folder: folder_of(alloc, work, dir)?,
    })
}

/// The one word.
fn one_word(alloc: Global, word: &str) -> Result<Sequence<Text>, AllocError>
    ensures { IfOk result (λ words. words ≡ word.now ∷ []) }
{
    let mut words = Sequence::empty(alloc);
    words.push(Text::from_str(alloc, word)?)?;
    Ok(words)
}

/// How a stub is started.
pub(crate) fn stub_launch(
    alloc: Global,
    work: &str,
    call: &StepCall,
    program: &str,
    given: &Mapping<Text>,
) -> Result<Launch, AllocError>
    ensures { IfOk result (λ launch.
        launch ≡ spec.stub_launch work.now call.now program.now given.now) }
{
    let variables = variables_of(alloc, work, call, given)?;
    Ok(Launch {
        words: one_word(alloc, program)?,
        variables,
        folder: Text::from_str(alloc, work)?,
    })
}

/// The shell that stands in where the first cannot be started: sh where none was named.
pub(crate) fn other_shell(shell: Shell) -> Option<Shell>
    ensures { result ≡ spec.other_shell shell }
{
    match shell {
        Shell::Default => Some(Shell::Sh),
        Shell::Sh => None,
        Shell::Bash => None,
    }
}
