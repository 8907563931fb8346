//! What words ask for: a command, with the files that they name, opened.

ghost use Rattle.std.specs.Prelude.{◌≡◌, IfOk, map};

use crate::choice::{choice_of, text_of};
use crate::folder::Folder;
use crate::question::question_of;
use clap::ArgMatches;
use command_io::error::CommandError;
use command_io::files::{NamedSource, OptionalFile};
use command_print::eval::AskedEval;
use command_print::plan::AskedPlan;
use command_run::run::{AskedRun, RunWords};
use command_why::wanted::Wanted;
use flow_model::Text;
use std::alloc::Global;
use why_causes::question::Question;

/// What `replay` shows of a record.
#[derive(Clone, Copy)]
pub(crate) enum Shown {
    /// The board after it.
    Board,
    /// That board, and whether it is what is settled.
    Settled,
    /// What each entry changes of the board.
    Changes,
}

/// What `replay` is asked for.
#[derive(Drop)]
pub(crate) struct AskedReplay<S> {
    pub(crate) record: S,
    pub(crate) shown: Shown,
}

/// What the options `--settled` and `--changes` have `replay` show; they exclude each other.
fn shown_by(settled: bool, changes: bool) -> Result<Shown, CommandError> {
    match (settled, changes) {
        (true, true) => Err(CommandError::Words),
        (true, false) => Ok(Shown::Settled),
        (false, true) => Ok(Shown::Changes),
        (false, false) => Ok(Shown::Board),
    }
}

/// What `why` is asked for.
#[derive(Drop)]
pub(crate) struct AskedWhy<S> {
    pub(crate) record: S,
    pub(crate) wanted: Wanted,
}

/// What the options `--json` and `--each` have `why` print of what is named; `--each` is for JSON of all parts.
fn wanted_by(json: bool, each: bool, named: Option<Question>) -> Result<Wanted, CommandError> {
    match (json, each, named) {
        (false, false, named) => Ok(Wanted::Words(named)),
        (true, false, named) => Ok(Wanted::Objects(named)),
        (true, true, None) => Ok(Wanted::Each),
        (true, true, Some(_)) | (false, true, _) => Err(CommandError::Words),
    }
}

/// A command that is asked for.
#[derive(Drop)]
pub(crate) enum Asked<'w, S> {
    Table,
    Eval(AskedEval<'w, OptionalFile<S>>),
    Plan(AskedPlan<OptionalFile<S>>, Vec<NamedSource<S>>),
    List(Vec<NamedSource<S>>),
    Lint(Vec<NamedSource<S>>),
    Replay(AskedReplay<S>),
    Graph(S),
    Timeline(S),
    Why(AskedWhy<S>),
    Run(AskedRun<'w, OptionalFile<S>, S>),
    Debug(S),
}

/// The words of a command, and where the files are that they name.
#[derive(Drop)]
struct Asking<'m, 'w, F> {
    alloc: Global,
    words: &'m ArgMatches<'w>,
    folder: &'m F,
}

impl<'m, 'w, F: Folder> Asking<'m, 'w, F> {
    /// Opens the file of that name.
    fn open(&self, name: &str) -> Result<F::File, CommandError> {
        match self.folder.open(name) {
            Some(file) => Ok(file),
            None => Err(CommandError::Io),
        }
    }

    /// Opens a file, and gives it with its name.
    fn open_named(&self, name: &str) -> Result<NamedSource<F::File>, CommandError>
        ensures { IfOk result (λ file. file.name ≡ name.now) }
    {
        let text = text_of(self.alloc, name)?;
        let source = self.open(name)?;
        Ok(NamedSource { name: text, source })
    }

    /// Opens files one after the other, and gives each with its name.
    fn open_all(&self, names: &[&str]) -> Result<Vec<NamedSource<F::File>>, CommandError>
        ensures { IfOk result
            (λ files. map (λ file. file.name) files.items ≡ map (λ name. name.now) names.now) }
    {
        let mut files = Vec::new(self.alloc);
        for name in names {
            let file = self.open_named(*name)?;
            if files.push(file).is_err() {
                return Err(CommandError::Memory);
            }
        }
        Ok(files)
    }

    /// Opens the file that a word names which is always there.
    fn open_required(&self, id: &str) -> Result<F::File, CommandError> {
        self.open(self.words.get_str(id).unwrap_or(""))
    }

    /// Opens the file that an option names, if it is there.
    fn open_optional(&self, id: &str) -> Result<NamedSource<OptionalFile<F::File>>, CommandError> {
        let Some(name) = self.words.get_str(id) else {
            return Ok(NamedSource {
                name: Text::new(String::new(self.alloc)),
                source: OptionalFile::Absent,
            });
        };
        let file = self.open_named(name)?;
        Ok(NamedSource {
            name: file.name,
            source: OptionalFile::Named(file.source),
        })
    }

    /// Opens the files of workflows.
    fn open_flows(&self) -> Result<Vec<NamedSource<F::File>>, CommandError> {
        match self.words.get_strs("flow") {
            Some(names) => self.open_all(names),
            None => Err(CommandError::Words),
        }
    }

    /// What `eval` is asked for.
    fn asked_eval(&self) -> Result<AskedEval<'w, OptionalFile<F::File>>, CommandError> {
        let contexts = self.open_optional("contexts")?;
        let expression = self.words.get_str("expression").unwrap_or("");
        Ok(AskedEval {
            contexts,
            expression,
        })
    }

    /// What `plan` is asked for beside the files of the workflows.
    fn asked_plan(&self) -> Result<AskedPlan<OptionalFile<F::File>>, CommandError> {
        let words = self.words;
        let choice = choice_of(self.alloc, words.get_str("event"), words.get_str("job"))?;
        let contexts = self.open_optional("contexts")?;
        Ok(AskedPlan { choice, contexts })
    }

    /// What `run` is asked for: one worker where the words say nothing of them.
    fn asked_run(&self) -> Result<AskedRun<'w, OptionalFile<F::File>, F::File>, CommandError> {
        let words = RunWords {
            workers: self.words.get_one::<u64>("workers").unwrap_or(1),
            record: self.words.get_str("record"),
            times: self.words.get_str("times"),
            work: self.words.get_str("work"),
            progress: self.words.get_flag("progress"),
        };
        let stubs = self.open_optional("stubs")?;
        let plan = self.open_required("plan")?;
        Ok(AskedRun { words, stubs, plan })
    }

    /// What `replay` is asked for.
    fn asked_replay(&self) -> Result<AskedReplay<F::File>, CommandError> {
        let words = self.words;
        let shown = shown_by(words.get_flag("settled"), words.get_flag("changes"))?;
        let record = self.open_required("record")?;
        Ok(AskedReplay { record, shown })
    }

    /// What `why` is asked for.
    fn asked_why(&self) -> Result<AskedWhy<F::File>, CommandError> {
        let words = self.words;
        let named = match words.get_strs("what") {
            Some(words) => question_of(words)?,
            None => None,
        };
        let wanted = wanted_by(words.get_flag("json"), words.get_flag("each"), named)?;
        let record = self.open_required("record")?;
        Ok(AskedWhy { record, wanted })
    }

    /// What the words ask for after the name of their command.
    fn asked(&self, name: &str) -> Result<Asked<'w, F::File>, CommandError> {
        match name {
            "table" => Ok(Asked::Table),
            "eval" => Ok(Asked::Eval(self.asked_eval()?)),
            "plan" => Ok(Asked::Plan(self.asked_plan()?, self.open_flows()?)),
            "list" => Ok(Asked::List(self.open_flows()?)),
            "lint" => Ok(Asked::Lint(self.open_flows()?)),
            "replay" => Ok(Asked::Replay(self.asked_replay()?)),
            "graph" => Ok(Asked::Graph(self.open_required("file")?)),
            "timeline" => Ok(Asked::Timeline(self.open_required("record")?)),
            "why" => Ok(Asked::Why(self.asked_why()?)),
            "run" => Ok(Asked::Run(self.asked_run()?)),
            "debug" => Ok(Asked::Debug(self.open_required("record")?)),
            _ => Err(CommandError::Words),
        }
    }
}

/// What words ask for, with the files opened that they name.
///
/// # Errors
///
/// `CommandError::Words` where they ask for no command, `CommandError::Io` where a file cannot be opened, and `CommandError::Memory`.
pub(crate) fn asked_by<'w, F: Folder>(
    alloc: Global,
    words: &ArgMatches<'w>,
    folder: &F,
) -> Result<Asked<'w, F::File>, CommandError> {
    match words.subcommand() {
        Some((name, words)) => {
            let asking = Asking {
                alloc,
                words,
                folder,
            };
            asking.asked(name)
        },
        None => Err(CommandError::Words),
    }
}
