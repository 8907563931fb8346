//! The shell and the directory that scripts have by default.

ghost use Rattle.std.specs.Prelude.{◌≡◌, OnOk, map};
ghost use Rattle.flow_reader.specs.Defaults as spec;

use crate::fault::FlowFault;
use crate::parts::{Part, read_object, read_or};
use crate::reading::FromJson;
use flow_model::{Duplicate, FlowJob, Sequence, Shell, StepPlan, Text, Work, Workflow};
use serde_json::Value;
use std::alloc::{AllocError, Global};
use std::marker::Model;
use std::mem;

/// What a job or workflow names for its scripts.
#[derive(Drop)]
pub(crate) struct Defaults {
    pub(crate) dir: Option<Text>,
    pub(crate) shell: Shell,
}

/// Nothing by default.
fn no_defaults() -> Defaults
    ensures { result ≡ spec.no_defaults }
{
    Defaults {
        dir: None,
        shell: Shell::Default,
    }
}

/// What stands at `run` in `defaults`.
#[derive(Drop)]
pub(crate) struct RunDefaults {
    pub(crate) defaults: Defaults,
}

impl Model for RunDefaults {
    ghost use Rattle.flow_reader.specs.declared.defaults.Defaults.{Defaults};

    ghost Value = { Defaults };

    ghost view = { λ p. p.defaults };
}

/// What an object names of the place of a script.
type PlaceParts = (Shell, (Option<Text>, ()));

impl FromJson for RunDefaults {
    ghost use Rattle.flow_reader.specs.Defaults.{place_of};

    ghost reading = { place_of };

    #[tactic(auto, unfolding(crate::specs::Defaults::place_of), using(crate::proofs::Faults::stands_made, crate::proofs::Faults::ok_made))]
    fn from_json(alloc: Global, json: &Value) -> Result<RunDefaults, FlowFault> {
        let keys = ["shell", "working-directory"];
        let (shell, (dir, ())) = read_object::<PlaceParts>(alloc, json, &keys)?;
        let defaults = Defaults { dir, shell };
        Ok(RunDefaults { defaults })
    }
}

impl Part for RunDefaults {
    ghost use Rattle.flow_reader.specs.Checked.{defaulted};
    ghost use Rattle.flow_reader.specs.Defaults.{no_defaults, place_of};

    ghost part = { defaulted no_defaults place_of };

    fn read_at(alloc: Global, object: &Value, key: &str) -> Result<RunDefaults, FlowFault> {
        let defaults = no_defaults();
        read_or(alloc, object, key, RunDefaults { defaults })
    }
}

impl FromJson for Defaults {
    ghost use Rattle.flow_reader.specs.Defaults.{defaults_of};

    ghost reading = { defaults_of };

    #[tactic(auto, unfolding(crate::specs::Defaults::defaults_of), using(crate::proofs::Faults::stands_made, crate::proofs::Faults::ok_made))]
    fn from_json(alloc: Global, json: &Value) -> Result<Defaults, FlowFault> {
        let (place, ()) = read_object::<(RunDefaults, ())>(alloc, json, &["run"])?;
        Ok(place.defaults)
    }
}

impl Part for Defaults {
    ghost use Rattle.flow_reader.specs.Checked.{defaulted};
    ghost use Rattle.flow_reader.specs.Defaults.{no_defaults, defaults_of};

    ghost part = { defaulted no_defaults defaults_of };

    fn read_at(alloc: Global, object: &Value, key: &str) -> Result<Defaults, FlowFault> {
        read_or(alloc, object, key, no_defaults())
    }
}

/// Names the default directory where none is named.
fn fill_dir(alloc: Global, default: &Option<Text>, dir: &mut Option<Text>) -> Result<(), AllocError>
    ensures { OnOk result (dir.new ≡ spec.dir_or dir.old default.now) }
{
    if dir.is_none() {
        *dir = default.copy(alloc)?;
    }
    Ok(())
}

/// The shell that is named, or else the default.
fn shell_or(shell: Shell, default: Shell) -> Shell
    ensures { result ≡ spec.shell_or shell default }
{
    match shell {
        Shell::Default => default,
        Shell::Sh => Shell::Sh,
        Shell::Bash => Shell::Bash,
    }
}

/// The directory that is named, or else the other.
fn dir_or_other(dir: Option<Text>, other: Option<Text>) -> Option<Text>
    ensures { result ≡ spec.dir_or dir other }
{
    match dir {
        Some(dir) => Some(dir),
        None => other,
    }
}

/// What a step does, with a shell and a directory of its own.
pub(crate) fn own_work(own: Defaults, work: Work) -> Work
    ensures { result ≡ spec.filled_work own work }
{
    match work {
        Work::Run { dir, run, shell } => Work::Run {
            dir: dir_or_other(dir, own.dir),
            run,
            shell: shell_or(shell, own.shell),
        },
        Work::Uses { uses, given } => Work::Uses { uses, given },
    }
}

/// Gives a step's work the defaults where its script names no shell or directory.
fn fill_work(alloc: Global, defaults: &Defaults, work: &mut Work) -> Result<(), AllocError>
    ensures { OnOk result (work.new ≡ spec.filled_work defaults.now work.old) }
{
    match work {
        Work::Run { dir, run: _, shell } => {
            *shell = shell_or(*shell, defaults.shell);
            fill_dir(alloc, &defaults.dir, dir)
        },
        Work::Uses { uses: _, given: _ } => Ok(()),
    }
}

/// What has scripts, which may have defaults.
pub(crate) trait Fill {
    ghost use Rattle.flow_reader.specs.declared.defaults.Defaults.{Defaults};

    ghost filled: { Defaults → Self → Self };

    /// Gives its scripts these defaults where they name no shell or directory.
    fn fill(&mut self, alloc: Global, defaults: &Defaults) -> Result<(), AllocError>
        ensures { OnOk result (self.new ≡ filled defaults.now self.old) };
}

impl Fill for StepPlan {
    ghost use Rattle.flow_reader.specs.Defaults.{filled_step};

    ghost filled = { filled_step };

    fn fill(&mut self, alloc: Global, defaults: &Defaults) -> Result<(), AllocError> {
        fill_work(alloc, defaults, &mut self.work)
    }
}

impl Fill for FlowJob {
    ghost use Rattle.flow_reader.specs.Defaults.{filled_job};

    ghost filled = { filled_job };

    fn fill(&mut self, alloc: Global, defaults: &Defaults) -> Result<(), AllocError> {
        fill_each(alloc, defaults, &mut self.steps)
    }
}

impl Fill for Workflow {
    ghost use Rattle.flow_reader.specs.Defaults.{filled_workflow};

    ghost filled = { filled_workflow };

    fn fill(&mut self, alloc: Global, defaults: &Defaults) -> Result<(), AllocError> {
        fill_each(alloc, defaults, &mut self.jobs)
    }
}

/// Fills in each item of a list. Where memory runs out, some of the items are lost.
pub(crate) fn fill_each<T: Fill + Drop>(
    alloc: Global,
    defaults: &Defaults,
    items: &mut Sequence<T>,
) -> Result<(), AllocError>
    ensures { OnOk result (items.new ≡ map (T.filled defaults.now) items.old) }
{
    let left = mem::replace(items, Sequence::empty(alloc));
    for item in left.into_vec() {
        let mut filled = item;
        filled.fill(alloc, defaults)?;
        items.push(filled)?;
    }
    Ok(())
}
