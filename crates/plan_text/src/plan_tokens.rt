//! A plan from the text that is printed of it.
//!
//! The text is read token by token, and each part of the plan is made as its tokens come; a tree is made
//! of a list or a map among the values alone. A tree of the whole would take fifteen times the text.

ghost use Rattle.std.specs.Prelude.{◌≡◌, ◌∷◌, IfOk, Some, Ok, codes};
ghost use Rattle.json.specs.Token as token;
ghost use Rattle.serde_json.specs.Read.{read};
ghost use Rattle.plan_documents.specs.Document.{work_data, document_in};
ghost use Rattle.plan_text.specs.Load.{load};
ghost use Rattle.plan_text.specs.Spelled.{Spells};

use crate::tokens::{FromTokens, end_object, next_member, next_part, read_after, read_object};
use flow_model::{
    Broken, CheckedPlan, Flag, Group, JobPlan, Mapping, Plan, Roots, RunPlan, Sequence, Shell,
    StepPlan, Text, Work,
};
use json::{Reader, Scratch, Token};
use plan_documents::{JOB_KEYS, JobParts, Unread, Version, job_from, refused};
use std::alloc::Global;

/// The word that tells a script.
#[derive(Drop)]
struct ScriptKind;

/// The word that tells an action.
#[derive(Drop)]
struct ActionKind;

impl FromTokens for ScriptKind {
    ghost use Rattle.std.specs.Prelude.{codes};
    ghost use Rattle.serde_json.specs.Data.{string};

    ghost document = { λ _. string (codes "run") };

    ghost levels = { 0 };

    fn from_tokens(
        alloc: Global,
        first: Token<'_>,
        reader: &mut Reader<'_>,
    ) -> Result<ScriptKind, Unread> {
        match first {
            Token::String(text) if text == "run" => Ok(ScriptKind),
            _ => Err(refused(alloc, "")),
        }
    }
}

impl FromTokens for ActionKind {
    ghost use Rattle.std.specs.Prelude.{codes};
    ghost use Rattle.serde_json.specs.Data.{string};

    ghost document = { λ _. string (codes "uses") };

    ghost levels = { 0 };

    fn from_tokens(
        alloc: Global,
        first: Token<'_>,
        reader: &mut Reader<'_>,
    ) -> Result<ActionKind, Unread> {
        match first {
            Token::String(text) if text == "uses" => Ok(ActionKind),
            _ => Err(refused(alloc, "")),
        }
    }
}

impl FromTokens for Version {
    ghost use Rattle.plan_documents.specs.Version.{version_data};

    ghost document = { version_data };

    ghost levels = { 0 };

    fn from_tokens(
        alloc: Global,
        first: Token<'_>,
        reader: &mut Reader<'_>,
    ) -> Result<Version, Unread> {
        match u64::from_tokens(alloc, first, reader)? {
            1 => Ok(Version::One),
            2 => Ok(Version::Two),
            _ => Err(refused(alloc, "")),
        }
    }
}

impl FromTokens for Flag {
    ghost use Rattle.plan_documents.specs.Document.{flag_data};

    ghost document = { flag_data };

    ghost levels = { 0 };

    fn from_tokens(
        alloc: Global,
        first: Token<'_>,
        reader: &mut Reader<'_>,
    ) -> Result<Flag, Unread> {
        match first {
            Token::Bool(truth) => Ok(Flag::Truth(truth)),
            Token::String(text) => Ok(Flag::Text(Text::from_str(alloc, text)?)),
            _ => Err(refused(alloc, "")),
        }
    }
}

impl FromTokens for Group {
    ghost use Rattle.plan_documents.specs.Document.{group_data};

    ghost document = { group_data };

    ghost levels = { 1 };

    fn from_tokens(
        alloc: Global,
        first: Token<'_>,
        reader: &mut Reader<'_>,
    ) -> Result<Group, Unread> {
        let (cancel, (name, ())) = read_object(alloc, first, reader, &["cancel", "name"])?;
        Ok(Group { cancel, name })
    }
}

impl FromTokens for Roots {
    ghost use Rattle.plan_documents.specs.Document.{roots_data};

    ghost document = { roots_data };

    ghost levels = { 102 };

    fn from_tokens(
        alloc: Global,
        first: Token<'_>,
        reader: &mut Reader<'_>,
    ) -> Result<Roots, Unread> {
        let keys = ["github", "inputs", "secrets", "vars"];
        let (github, (inputs, (secrets, (vars, ())))) = read_object(alloc, first, reader, &keys)?;
        Ok(Roots {
            github,
            inputs,
            secrets,
            vars,
        })
    }
}

impl FromTokens for Shell {
    ghost use Rattle.plan_documents.specs.Document.{shell_data};

    ghost document = { shell_data };

    ghost levels = { 0 };

    fn from_tokens(
        alloc: Global,
        first: Token<'_>,
        reader: &mut Reader<'_>,
    ) -> Result<Shell, Unread> {
        let Token::String(text) = first else {
            return Err(refused(alloc, ""));
        };
        match text {
            "default" => Ok(Shell::Default),
            "sh" => Ok(Shell::Sh),
            "bash" => Ok(Shell::Bash),
            _ => Err(refused(alloc, "")),
        }
    }
}

impl FromTokens for Work {
    ghost use Rattle.plan_documents.specs.Document.{work_data};

    ghost document = { work_data };

    ghost levels = { 102 };

    fn from_tokens(
        alloc: Global,
        first: Token<'_>,
        reader: &mut Reader<'_>,
    ) -> Result<Work, Unread> {
        let Token::BeginObject = first else {
            return Err(refused(alloc, ""));
        };
        match reader.next() {
            // the first key of a script is `dir`, and that of an action `kind`
            Some(Token::Key(key)) if key == "dir" => script_after_dir(alloc, reader),
            Some(Token::Key(key)) if key == "kind" => action_after_kind(alloc, reader),
            _ => Err(refused(alloc, "")),
        }
    }
}

/// A script whose first key was read.
fn script_after_dir(alloc: Global, reader: &mut Reader<'_>) -> Result<Work, Unread>
    ensures { IfOk result (λ work. Spells 102
        (token.begin_object ∷ token.key (codes "dir") ∷ reader.old) (work_data work) reader.new) }
{
    let dir = next_part(alloc, reader)?;
    let ScriptKind = next_member(alloc, reader, "kind")?;
    let run = next_member(alloc, reader, "run")?;
    let shell = next_member(alloc, reader, "shell")?;
    end_object(alloc, reader)?;
    Ok(Work::Run { dir, run, shell })
}

/// An action whose first key was read.
fn action_after_kind(alloc: Global, reader: &mut Reader<'_>) -> Result<Work, Unread>
    ensures { IfOk result (λ work. Spells 102
        (token.begin_object ∷ token.key (codes "kind") ∷ reader.old) (work_data work) reader.new) }
{
    let (ActionKind, (uses, (given, ()))) = read_after(alloc, reader, "kind", &["uses", "with"])?;
    Ok(Work::Uses { uses, given })
}

/// Of a plan most is steps. So their members are read one by one: by pairs each would be moved once for each before it.
impl FromTokens for StepPlan {
    ghost use Rattle.plan_documents.specs.Document.{step_data};

    ghost document = { step_data };

    ghost levels = { 103 };

    fn from_tokens(
        alloc: Global,
        first: Token<'_>,
        reader: &mut Reader<'_>,
    ) -> Result<StepPlan, Unread> {
        let Token::BeginObject = first else {
            return Err(refused(alloc, ""));
        };
        let condition = next_member(alloc, reader, "condition")?;
        let env = next_member(alloc, reader, "env")?;
        let id = next_member(alloc, reader, "id")?;
        let name = next_member(alloc, reader, "name")?;
        let tolerate = next_member(alloc, reader, "tolerate")?;
        let work = next_member(alloc, reader, "work")?;
        end_object(alloc, reader)?;
        Ok(StepPlan {
            condition,
            env,
            id,
            name,
            tolerate,
            work,
        })
    }
}

impl FromTokens for JobPlan {
    ghost use Rattle.plan_documents.specs.Document.{job_data};

    ghost document = { job_data };

    ghost levels = { 105 };

    fn from_tokens(
        alloc: Global,
        first: Token<'_>,
        reader: &mut Reader<'_>,
    ) -> Result<JobPlan, Unread> {
        Ok(job_from(read_object::<JobParts>(alloc, first, reader, &JOB_KEYS)?))
    }
}

impl FromTokens for RunPlan {
    ghost use Rattle.plan_documents.specs.Document.{run_data};

    ghost document = { run_data };

    ghost levels = { 107 };

    fn from_tokens(
        alloc: Global,
        first: Token<'_>,
        reader: &mut Reader<'_>,
    ) -> Result<RunPlan, Unread> {
        let keys = ["env", "event", "flow", "group", "jobs", "roots"];
        let (env, (event, (flow, (group, (jobs, (roots, ())))))) = read_object(
            alloc, first, reader, &keys,
        )?;
        Ok(RunPlan {
            env,
            event,
            flow,
            group,
            jobs,
            roots,
        })
    }
}

/// A plan and the version of its document.
impl FromTokens for (Plan, Version) {
    ghost use Rattle.plan_documents.specs.Document.{document_in};

    ghost document = { λ found. document_in found.1 found.0 };

    ghost levels = { 109 };

    fn from_tokens(
        alloc: Global,
        first: Token<'_>,
        reader: &mut Reader<'_>,
    ) -> Result<(Plan, Version), Unread> {
        let (runs, (version, ())) = read_object(alloc, first, reader, &["runs", "version"])?;
        Ok((Plan { runs }, version))
    }
}

/// The plan of whose document a text is spelled, and the document's version.
fn read_text(alloc: Global, text: &str) -> Result<(Plan, Version), Unread>
    ensures { IfOk result (λ found. read text.now ≡ Some (document_in found.1 found.0)) }
{
    let mut scratch = Scratch::new(alloc);
    let mut reader = Reader::new(text, &mut scratch)?;
    let found = next_part(alloc, &mut reader)?;
    if reader.next().is_some() {
        return Err(refused(alloc, ""));
    }
    Ok(found)
}

/// The plan whose document a text is, in either version, spelled in the order in which it is printed.
pub(crate) fn read_printed(alloc: Global, bytes: &[u8]) -> Result<CheckedPlan, Unread>
    ensures { IfOk result (λ plan. load bytes.now ≡ Ok plan) }
{
    let Ok(text) = std::str::from_utf8(bytes) else {
        return Err(refused(alloc, ""));
    };
    let (plan, _) = read_text(alloc, text)?;
    match plan.check(alloc) {
        Ok(checked) => Ok(checked),
        Err(Broken::Rule(path)) => Err(Unread::Refused(path)),
        Err(Broken::Memory) => Err(Unread::Memory),
    }
}
