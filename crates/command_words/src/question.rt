//! What the words of `why` ask about.

use command_io::error::CommandError;
use why_causes::question::Question;

/// The number that digits write; one beyond the greatest of 64 bits counts as that.
fn number_of(digits: &str) -> Result<u64, CommandError> {
    if digits.is_empty() {
        return Err(CommandError::Words);
    }
    let mut number: u64 = 0;
    for byte in digits.as_bytes() {
        let Some(digit) = char::from(*byte).to_digit(10) else {
            return Err(CommandError::Words);
        };
        number = number.saturating_mul(10).saturating_add(u64::from(digit));
    }
    Ok(number)
}

/// The run, the job or the leg with that number.
fn named_question(kind: &str, number: u64) -> Result<Question, CommandError> {
    match kind {
        "run" => Ok(Question::Run(number)),
        "job" => Ok(Question::Job(number)),
        "leg" => Ok(Question::Leg(number)),
        _ => Err(CommandError::Words),
    }
}

/// What words ask about: a run, a job, a leg, or a step of a leg, each by its number; no words ask about nothing by name.
pub(crate) fn question_of(words: &[&str]) -> Result<Option<Question>, CommandError> {
    match words {
        [] => Ok(None),
        [kind, number] => Ok(Some(named_question(kind, number_of(number)?)?)),
        ["step", leg, step] => Ok(Some(Question::Step {
            leg: number_of(leg)?,
            step: number_of(step)?,
        })),
        _ => Err(CommandError::Words),
    }
}
