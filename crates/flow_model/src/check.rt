//! The check of a plan's rules, and what it lets through.
//!
//! Each function here answers the path of the first broken rule of a part, as that rule's definition
//! finds it.

ghost use Rattle.std.specs.Prelude.{◌≡◌, is_ok, ◌+◌, ◌≤◌, ℕ, Bool, List, Option, IfOk, OnOk, None, length, decimal};
ghost use Rattle.std.specs.List.{list_any};
ghost use Rattle.std.specs.Str.{bytes_eq};
ghost use Rattle.flow_model.specs.Found as found;
ghost use Rattle.flow_model.specs.Found.{Checks, ChecksUnder};

use crate::duplicate::Duplicate;
use crate::mapping::Mapping;
use crate::plan::Plan;
use crate::rules::check_plan;
use crate::text::Text;
use crate::texts::tests_tell;
use std::alloc::{AllocError, Global};
use std::marker::Model;
use thiserror::Error;

/// Why a plan is refused.
#[derive(Debug, Drop, Error)]
pub enum Broken {
    /// A rule is broken: its path in the plan document, keys and places joined by dots.
    #[error("Rule({0:?})")]
    Rule(Text),
    /// There is no memory.
    #[error("Memory")]
    Memory,
}

impl From<AllocError> for Broken {
    ghost use Rattle.std.specs.Prelude.{◌≡◌};
    ghost use Rattle.flow_model.specs.declared.check.Broken.TheVariants.{Memory};

    ghost from_gives = { λ _ e. e ≡ Memory };

    fn from(_error: AllocError) -> Broken {
        Broken::Memory
    }
}

/// The rules of one kind of part.
pub(crate) trait Rules<T> {
    /// The path of the first broken rule.
    ghost rules: { T → Option (List ℕ) };

    fn check(alloc: Global, part: &T) -> Result<(), Broken>
        ensures { Checks (rules part.now) result };
}

/// A test of the pairs of one kind of map.
pub(crate) trait PairTest<V> {
    ghost test: { List ℕ × V → Bool };

    fn passes(alloc: Global, key: &str, value: &V) -> Result<bool, AllocError>
        ensures { IfOk result (λ passed. passed ≡ test (key.now, value.now)) };
}

/// A rule, broken at its path where it does not hold.
pub(crate) fn rule(alloc: Global, path: &str, holds: bool) -> Result<(), Broken>
    ensures { Checks (found.rule path.now holds) result }
{
    if holds {
        Ok(())
    } else {
        Err(Broken::Rule(Text::from_str(alloc, path)?))
    }
}

/// A check of a part, seen from the whole that has the part at this key.
pub(crate) fn under(alloc: Global, key: &str, checked: Result<(), Broken>) -> Result<(), Broken>
    ensures { ChecksUnder key.now checked result }
{
    match checked {
        Ok(()) => Ok(()),
        Err(Broken::Rule(path)) => {
            let path = format!(in alloc; "{key}.{}", path.as_str())?;
            Err(Broken::Rule(Text::new(path)))
        },
        Err(Broken::Memory) => Err(Broken::Memory),
    }
}

/// A check of an item, seen from the list that has it at this place.
pub(crate) fn at_place(
    alloc: Global,
    place: usize,
    checked: Result<(), Broken>,
) -> Result<(), Broken>
    ensures checks { ChecksUnder (decimal place) checked result }
    ensures ok { is_ok result ≡ is_ok checked }
{
    match checked {
        Ok(()) => Ok(()),
        Err(Broken::Rule(path)) => {
            let path = format!(in alloc; "{place}.{}", path.as_str())?;
            Err(Broken::Rule(Text::new(path)))
        },
        Err(Broken::Memory) => Err(Broken::Memory),
    }
}

/// Checks a part, seen from the whole that has it at this key.
pub(crate) fn check_under<T, R: Rules<T>>(alloc: Global, key: &str, part: &T) -> Result<(), Broken>
    ensures { Checks (found.under key.now (R.rules part.now)) result }
{
    under(alloc, key, R::check(alloc, part))
}

/// Checks an item, seen from the list that has it at this place.
fn check_at<T, R: Rules<T>>(alloc: Global, place: usize, part: &T) -> Result<(), Broken>
    ensures { Checks (found.under (decimal place) (R.rules part.now)) result }
{
    at_place(alloc, place, R::check(alloc, part))
}

/// Checks each item of a list.
fn check_each<T, R: Rules<T>>(alloc: Global, parts: &[T]) -> Result<(), Broken>
    ensures { Checks (found.each R.rules 0 parts.now) result }
{
    for (place, part) in parts.iter().enumerate() {
        if let Err(broken) = check_at::<T, R>(alloc, place, part) {
            return Err(broken);
        }
    }
    Ok(())
}

/// Checks each item of a list, seen from the whole that has the list at this key.
pub(crate) fn check_list<T, R: Rules<T>>(
    alloc: Global,
    key: &str,
    parts: &[T],
) -> Result<(), Broken>
    ensures { Checks (found.under key.now (found.each R.rules 0 parts.now)) result }
{
    under(alloc, key, check_each::<T, R>(alloc, parts))
}

/// Tests each pair of a map.
pub(crate) fn check_pairs<V, T: PairTest<V>>(
    alloc: Global,
    pairs: &Mapping<V>,
) -> Result<(), Broken>
    ensures { Checks (found.each_pair T.test pairs.now) result }
{
    for (key, value) in pairs.iter() {
        let passed = T::passes(alloc, key.as_str(), value)?;
        rule(alloc, key.as_str(), passed)?;
    }
    Ok(())
}

/// Tests each pair of a map, seen from the whole that has the map at this key.
pub(crate) fn check_map<V, T: PairTest<V>>(
    alloc: Global,
    key: &str,
    pairs: &Mapping<V>,
) -> Result<(), Broken>
    ensures { Checks (found.under key.now (found.each_pair T.test pairs.now)) result }
{
    under(alloc, key, check_pairs::<V, T>(alloc, pairs))
}

/// A plan whose rules all hold. It is made by `Plan::check`, or copied.
#[derive(Drop)]
pub struct CheckedPlan {
    plan: Plan,
}

impl Model for CheckedPlan {
    ghost use Rattle.flow_model.specs.declared.plan.Plan.{Plan};
    ghost use Rattle.flow_model.specs.Plain.{coded_plain};
    ghost use Rattle.std.specs.Coded.{codes};

    ghost Value = { Plan };

    ghost coded = { Prim.hlevel (codes, coded_plain) };

    ghost view = { λ c. c.plan };

    ghost use Rattle.flow_model.specs.Rules.{IsPlan};

    ghost invariant = { λ c. IsPlan c.plan };
}

impl Plan {
    ghost use Rattle.flow_model.specs.Checked.{AcceptsSound, ChecksPlan};

    /// Accepts the plan where each of its rules holds.
    ///
    /// # Errors
    ///
    /// `Broken::Rule` with the path of the first rule that is broken, and `Broken::Memory` where there
    /// is no memory to read the texts that are evaluated, or for that path.
    pub fn check(self, alloc: Global) -> Result<CheckedPlan, Broken>
        ensures accepted { IfOk result (λ checked. checked ≡ self) }
        ensures exact { ChecksPlan self result }
        ensures rules { AcceptsSound self result }
    {
        tests_tell();
        check_plan(alloc, &self)?;
        Ok(CheckedPlan { plan: self })
    }
}

impl CheckedPlan {
    ghost use Rattle.flow_model.specs.Rules.{IsPlan};
    ghost use Rattle.flow_model.specs.Sound.{SoundPlan};

    /// The plan that was accepted. No rule is broken (`sound`), so each holds in its own words (`rules`).
    pub fn plan(&self) -> &Plan
        ensures same { result.now ≡ self.now }
        ensures sound { IsPlan result.now }
        ensures rules { SoundPlan result.now }
    {
        tests_tell();
        &self.plan
    }
}

impl Duplicate for CheckedPlan {
    fn copy(&self, alloc: Global) -> Result<CheckedPlan, AllocError> {
        let plan = self.plan.copy(alloc)?;
        Ok(CheckedPlan { plan })
    }
}
