//! The tree of what is asked, line by line.

ghost use Rattle.std.specs.Prelude.{◌≡◌, ◌++◌, ◌∷◌, [], IfOk, MatchOption, OnOk, replicate, reverse, false};
ghost use Rattle.why_causes.specs.Tree as spec;
ghost use Rattle.board_decisions.specs.Derived.{holds_at};
ghost use Rattle.why_facts.specs.Adds.{Adds};
ghost use Rattle.why_notes.specs.Account.{account_seen};

use crate::causes::add_causes;
use crate::numbers::next_number;
use crate::question::Question;
use flow_model::{Member, Sequence};
use std::alloc::{AllocError, Global};
use why_notes::account::SeenAccount;

/// A line of the tree.
#[derive(Clone, Copy)]
pub struct Line {
    /// How deep it stands: 0 at a root.
    pub depth: u64,
    /// The fact that it tells, by the question that it answers.
    pub question: Question,
    /// Whether it was told already.
    pub above: bool,
}

/// What was told: a mark for each run, job and leg, and for each run whether it is told that it was told to stop.
#[derive(Drop)]
pub(crate) struct Told {
    runs: Sequence<bool>,
    jobs: Sequence<bool>,
    legs: Sequence<bool>,
    stops: Sequence<bool>,
}

/// A question at a depth.
#[derive(Clone, Copy)]
pub(crate) struct Asked {
    depth: u64,
    question: Question,
}

/// So many marks, none of them set.
fn unset(alloc: Global, count: usize) -> Result<Sequence<bool>, AllocError>
    ensures { IfOk result (λ marks. marks ≡ replicate count false) }
{
    let marks = vec![in alloc; false; count]?;
    Ok(Sequence::new(marks))
}

/// Nothing was told.
fn nothing_told(alloc: Global, account: &SeenAccount) -> Result<Told, AllocError>
    ensures { IfOk result (λ told. told ≡ spec.nothing_told (account_seen account.now)) }
{
    let notes = account.notes;
    Ok(Told {
        runs: unset(alloc, notes.runs.len())?,
        jobs: unset(alloc, notes.jobs.len())?,
        legs: unset(alloc, notes.legs.len())?,
        stops: unset(alloc, notes.runs.len())?,
    })
}

/// The mark with a number; beyond the end there is none.
fn is_set(marks: &Sequence<bool>, number: u64) -> bool
    ensures { result ≡ holds_at marks.now number }
{
    match marks.as_slice().get(number as usize) {
        Some(mark) => *mark,
        None => false,
    }
}

/// Sets the mark with a number, where there is one.
fn set_mark(marks: &mut Sequence<bool>, number: u64)
    ensures { marks.new ≡ spec.set_mark marks.old number }
{
    if let Some(mark) = marks.get_mut(number as usize) {
        *mark = true;
    }
}

/// Whether a question was answered already.
fn is_told(told: &Told, question: Question) -> bool
    ensures { result ≡ spec.is_told told.now question }
{
    match question {
        Question::Run(number) => is_set(&told.runs, number),
        Question::Job(number) => is_set(&told.jobs, number),
        Question::Leg(number) => is_set(&told.legs, number),
        Question::Step { .. } => false,
        Question::Stop(Member::Run(number)) => is_set(&told.stops, number),
        Question::Stop(Member::Leg(_)) => false,
    }
}

/// Notes that a question is answered.
fn tell(told: &mut Told, question: Question)
    ensures { told.new ≡ spec.with_told told.old question }
{
    match question {
        Question::Run(number) => set_mark(&mut told.runs, number),
        Question::Job(number) => set_mark(&mut told.jobs, number),
        Question::Leg(number) => set_mark(&mut told.legs, number),
        Question::Step { .. } => {},
        Question::Stop(Member::Run(number)) => set_mark(&mut told.stops, number),
        Question::Stop(Member::Leg(_)) => {},
    }
}

/// Puts questions on top of those that are left, the first on top.
fn push_all(stack: &mut Vec<Asked>, depth: u64, questions: &[Question]) -> Result<(), AllocError>
    ensures { OnOk result
        (reverse stack.new.items ≡ spec.at_depth depth questions.now ++ reverse stack.old.items) }
{
    let mut left = questions.len();
    while left > 0 {
        left -= 1;
        let question = questions[left];
        stack.push(Asked { depth, question })?;
    }
    Ok(())
}

/// Adds the line of a question.
fn add_line(out: &mut Vec<Line>, asked: Asked, above: bool) -> Result<(), AllocError>
    ensures { OnOk result (Adds out.old.items out.new.items (spec.lines_of asked above)) }
{
    if above && asked.depth == 0 {
        return Ok(());
    }
    out.push(Line {
        depth: asked.depth,
        question: asked.question,
        above,
    })?;
    Ok(())
}

/// Puts what made a fact so on top of what is left.
fn push_causes(
    alloc: Global,
    account: &SeenAccount,
    stack: &mut Vec<Asked>,
    asked: Asked,
) -> Result<(), AllocError>
    ensures { OnOk result (reverse stack.new.items
        ≡ spec.asked_below (account_seen account.now) asked false ++ reverse stack.old.items) }
{
    let depth = next_number(asked.depth)?;
    let mut causes = Vec::new(alloc);
    add_causes(alloc, &mut causes, account, asked.question)?;
    push_all(stack, depth, causes.as_slice())
}

/// Answers a question that was not answered already, or was, but for its line.
fn descend(
    account: &SeenAccount,
    stack: &mut Vec<Asked>,
    told: &mut Told,
    asked: Asked,
    above: bool,
) -> Result<(), AllocError>
    ensures told { OnOk result (told.new ≡ spec.told_after told.old asked.question above) }
    ensures stack { OnOk result (reverse stack.new.items
        ≡ spec.asked_below (account_seen account.now) asked above ++ reverse stack.old.items) }
{
    if above {
        return Ok(());
    }
    tell(told, asked.question);
    push_causes(*stack.allocator(), account, stack, asked)
}

/// Takes the last of the questions that are left.
fn take_last(stack: &mut Vec<Asked>) -> Option<Asked>
    ensures { MatchOption result (stack.old.items ≡ [])
        (λ asked. stack.old.items ≡ stack.new.items ++ asked ∷ []) }
{
    stack.pop()
}

/// Answers the questions that are left, the last first.
fn answer_all(
    alloc: Global,
    account: &SeenAccount,
    stack: &mut Vec<Asked>,
    told: &mut Told,
) -> Result<Vec<Line>, AllocError>
    ensures { IfOk result (λ lines. lines.items
        ≡ spec.lines spec.most_lines (account_seen account.now) (reverse stack.old.items) told.old) }
{
    let mut out = Vec::new(alloc);
    for turn in 0..u64::MAX {
        let _left = u64::MAX - turn;
        let Some(asked) = take_last(stack) else {
            return Ok(out);
        };
        let above = is_told(told, asked.question);
        add_line(&mut out, asked, above)?;
        descend(account, stack, told, asked, above)?;
    }
    Ok(out)
}

/// The tree of questions: each fact on a line, and below it, one deeper, the facts that made it so.
pub fn tree(
    alloc: Global,
    account: &SeenAccount,
    roots: &[Question],
) -> Result<Vec<Line>, AllocError>
    ensures { IfOk result
        (λ lines. lines.items ≡ spec.tree (account_seen account.now) roots.now) }
{
    let mut stack = Vec::new(alloc);
    push_all(&mut stack, 0, roots)?;
    let mut told = nothing_told(alloc, account)?;
    answer_all(alloc, account, &mut stack, &mut told)
}
