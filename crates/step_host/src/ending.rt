//! What the end of a program answers.

ghost use Rattle.std.specs.Prelude.{◌≡◌, IfOk, IfSome, None, true};
ghost use Rattle.std.specs.Process.{exit_code};
ghost use Rattle.flow_model.specs.Answer.{is_exit_code, is_well_formed};
ghost use Rattle.flow_model.specs.declared.event.Answer.TheVariants.{Exit};
ghost use Rattle.flow_commands.specs.PairFiles.{Reading, Refuses, are_outputs, are_variables, env as env_of, outputs as outputs_of};
ghost use Rattle.step_host.specs.Program as spec;

use crate::watch::Refusal;
use flow_commands::{OutputFault, read_env_file, read_output_file};
use flow_model::{Answer, Mapping, Text};
use std::alloc::{AllocError, Global};
use std::process::ExitStatus;

/// The code of an exit status; without one it counts as 255.
fn code_of(status: ExitStatus) -> i64
    ensures value { result ≡ spec.code_of (exit_code status) }
    ensures within { is_exit_code result ≡ true }
{
    match status.code() {
        Some(code) => i64::from(code),
        None => 255,
    }
}

/// A file that is refused gives no pairs. Want of memory is told apart.
fn refused(fault: OutputFault) -> Result<Option<Mapping<Text>>, AllocError>
    ensures none { IfOk result (λ found. found ≡ None) }
    ensures refused { IfOk result (λ found. (file : Reading)
        → Refuses fault file → spec.accepted file ≡ found) }
{
    match fault {
        OutputFault::NotUtf8 => Ok(None),
        OutputFault::NoName => Ok(None),
        OutputFault::OpenBlock => Ok(None),
        OutputFault::TooMany => Ok(None),
        OutputFault::Memory => Err(AllocError),
    }
}

/// The outputs that the bytes of a file give, if it is not refused.
fn outputs_in(alloc: Global, bytes: &[u8]) -> Result<Option<Mapping<Text>>, AllocError>
    ensures read { IfOk result (λ found. found ≡ spec.accepted (outputs_of bytes.now)) }
    ensures within { IfOk result (λ found.
        IfSome found (λ outputs. are_outputs outputs ≡ true)) }
{
    match read_output_file(alloc, bytes) {
        Ok(outputs) => Ok(Some(outputs)),
        Err(fault) => refused(fault),
    }
}

/// The variables that the bytes of a file give, if it is not refused.
fn env_in(alloc: Global, bytes: &[u8]) -> Result<Option<Mapping<Text>>, AllocError>
    ensures read { IfOk result (λ found. found ≡ spec.accepted (env_of bytes.now)) }
    ensures within { IfOk result (λ found.
        IfSome found (λ env. are_variables env ≡ true)) }
{
    match read_env_file(alloc, bytes) {
        Ok(env) => Ok(Some(env)),
        Err(fault) => refused(fault),
    }
}

/// The answer of a program that ended.
fn exit(status: ExitStatus, outputs: Mapping<Text>, env: Mapping<Text>) -> Answer
    requires outputs { are_outputs outputs ≡ true }
    requires env { are_variables env ≡ true }
    ensures answer { result ≡ Exit (spec.code_of (exit_code status)) outputs env }
    ensures well_formed { is_well_formed result ≡ true }
{
    Answer::Exit {
        code: code_of(status),
        outputs,
        env,
    }
}

/// Why the file of variables is refused; one that is not is taken for one that there was no memory to read.
fn variables_fault(alloc: Global, env: &[u8]) -> OutputFault
    ensures { Refuses result (env_of env.now) }
{
    match read_env_file(alloc, env) {
        Ok(_) => OutputFault::Memory,
        Err(fault) => fault,
    }
}

/// Why one of these files is refused: that of outputs, or else that of variables.
pub(crate) fn refusal_of(alloc: Global, outputs: &[u8], env: &[u8]) -> Refusal
    ensures { spec.IsReason outputs.now env.now result }
{
    match read_output_file(alloc, outputs) {
        Ok(_) => Refusal::Variables(variables_fault(alloc, env)),
        Err(fault) => Refusal::Outputs(fault),
    }
}

/// The answer of a program, by its exit status, and by the bytes in the file of its outputs and in that of its variables.
pub(crate) fn ended(
    alloc: Global,
    status: ExitStatus,
    outputs: &[u8],
    env: &[u8],
) -> Result<Answer, AllocError>
    ensures answer { IfOk result (λ a.
        a ≡ spec.ended (exit_code status) outputs.now env.now) }
    ensures well_formed { IfOk result (λ a. is_well_formed a ≡ true) }
{
    let Some(outputs) = outputs_in(alloc, outputs)? else {
        return Ok(Answer::BadOutput);
    };
    match env_in(alloc, env)? {
        Some(env) => Ok(exit(status, outputs, env)),
        None => Ok(Answer::BadOutput),
    }
}
