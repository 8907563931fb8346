//! What starts programs.

ghost use Rattle.std.specs.Prelude.{◌≡◌, [], Bool, IfErr, IfOk, IfSome, List, Option, Some, string_bytes, ℕ};
ghost use Rattle.std.specs.Path.{IsAbsoluteOf};
ghost use Rattle.command_io.specs.Stream.{Stream};
ghost use Rattle.flow_commands.specs.PairFiles.{Pair};
ghost use Rattle.command_run.specs.Environment.{AreVariables, StartsOver};
ghost use Rattle.command_run.specs.Playing.{MasksAnswers};
ghost use Rattle.command_run.specs.Run.{IsOfMachine};
ghost use Rattle.command_run.specs.Stubs.{Stubs};

use crate::environment::{Environment, variables};
use crate::growing::GrowingFile;
use crate::growing_files::{GrowingFiles, GrowingNames, PART, name_beside};
use crate::progress::Progress;
use crate::step_names::StepNames;
use crate::whole_file::put_file;
use command_io::bounded::{Bounded, MOST_READS};
use command_io::error::CommandError;
use command_io::stream::{Input, LineSource, Sink};
use flow_commands::Masks;
use flow_model::{Duplicate, Mapping, Text};
use std::alloc::{AllocError, Global};
use std::fs::{File, Files};
use std::io::{BufReader, ErrorKind, Take};
use std::process::Processes;
use std::{fs, io, path};
use step_host::{Masked, ProgramHost, StepHost, Watched, open_regular};

/// What a host is built from.
#[derive(Drop)]
pub struct HostSetup<'w> {
    /// The folder in which programs start.
    pub work: &'w str,
    /// The program of each action.
    pub stubs: Mapping<Text>,
    /// The texts that are masked.
    pub masks: Masks,
    /// The names of the steps, if the start and the end of each are reported on standard error.
    pub progress: Option<StepNames>,
}

/// A file whose lines are read as they come.
type FileLines = Input<BufReader<Bounded<Take<File>, MOST_READS>>>;

/// The lines of the file of that name.
fn open_lines<F: Files<File = File>>(
    alloc: Global,
    files: &F,
    name: &str,
) -> io::Result<FileLines> {
    let file = open_regular(files, name)?;
    Ok(Input::new(BufReader::new(alloc, Bounded::new(file))?))
}

/// The host that starts programs by a runtime, over the variables of its environment that are texts.
fn programs_of<R: Environment + Processes + Files<File = File> + Sync + Copy>(
    alloc: Global,
    rt: &R,
    work: &str,
    stubs: Mapping<Text>,
) -> Result<ProgramHost<R>, AllocError>
    ensures work { IfOk result (λ host. host.work ≡ work.now) }
    ensures stubs { IfOk result (λ host. host.stubs ≡ stubs) }
    ensures base { IfOk result (λ host. AreVariables (R.holds rt.now) host.base) }
{
    let base = variables(rt, alloc)?;
    let work = Text::from_str(alloc, work)?;
    Ok(ProgramHost::new(alloc, *rt, work, base, stubs))
}

/// Where programs run.
pub trait Machine: Files + Environment {
    /// What plays steps by programs.
    type Host: StepHost + Drop;

    /// A file that gets the lines of a record while its plan is played.
    type Growing: GrowingFile + Send + Drop;

    /// The files of these names that grow while a plan is played, in which nothing stands. What cannot be made is told to standard
    /// error at once.
    fn grow(&self, alloc: Global, names: &GrowingNames<'_>) -> Self::Growing
        ensures { Self.Growing.holds result [] };

    /// Removes the file in which the record of that name grew.
    fn remove_grown(&self, alloc: Global, name: &str);

    /// A log of a step, which is read line by line.
    type Log: LineSource + Drop;

    /// That opening the file of this name gave this log, or none.
    ghost logs: { Option Self.Log → List ℕ → Type 0 };

    /// The log that the file of that name holds, if it can be opened.
    ///
    /// # Errors
    ///
    /// There is no memory.
    fn open_log(&self, alloc: Global, name: &str) -> Result<Option<Self::Log>, AllocError>
        ensures { IfOk result (λ found. logs found name.now) };

    /// That it wrote a file of this name with this text, whole or not, at a time when `out` showed this.
    ghost writes: { List ℕ → List ℕ → Stream → Bool → Type 0 };

    /// Writes a file of that name anew, and answers whether it was written whole; `out` is what the program tells its
    /// answer to.
    fn write_file<O: Sink>(&self, alloc: Global, name: &str, text: &[u8], out: &O) -> bool
        ensures { writes name.now text.now (O.seen out.now) result };

    /// That this is the whole path of the folder of this name, or that there is none.
    ghost paths: { List ℕ → Option (List ℕ) → Type 0 };

    /// The whole path of a folder.
    ///
    /// # Errors
    ///
    /// `CommandError::Io` where there is none, and `CommandError::Memory`.
    fn whole_path(&self, folder: &str) -> Result<String, CommandError>
        ensures path { IfOk result (λ path. paths folder.now (Some (string_bytes path))) }
        ensures none { IfErr result (IsOfMachine (paths folder.now)) };

    /// That a host starts programs in this folder or below, each action by the program that these stubs have for it, over these
    /// variables.
    ghost starts: { Self.Host → List ℕ → Stubs → List Pair → Type 0 };

    /// The host that starts programs, over those variables of the environment that are texts. It masks the values of
    /// outputs and of variables that steps set.
    ///
    /// # Errors
    ///
    /// There is no memory.
    fn host(&self, alloc: Global, setup: HostSetup<'_>) -> Result<Self::Host, AllocError>
        ensures masks { IfOk result (λ host. MasksAnswers setup.entry.masks (Self.Host.admits host)) }
        ensures starts { IfOk result (λ host. StartsOver (Self.holds self.now)
            (starts host setup.entry.work.now setup.entry.stubs)) };
}

impl Machine for HostRuntime {
    type Host = Watched<Masked<ProgramHost<HostRuntime>>, Progress>;

    type Growing = GrowingFiles;

    type Log = FileLines;

    // nothing is known of a disk
    ghost logs = { λ _ _. Unit {0} };

    ghost writes = { λ _ _ _ _. Unit {0} };

    ghost paths = { λ folder path. IfSome path (IsAbsoluteOf folder) };

    ghost starts = { λ host work stubs base. (host.host.host.work ≡ work)
        × (host.host.host.stubs ≡ stubs) × (host.host.host.base ≡ base) };

    fn grow(&self, alloc: Global, names: &GrowingNames<'_>) -> GrowingFiles {
        GrowingFiles::new(*self, alloc, names)
    }

    fn remove_grown(&self, alloc: Global, name: &str) {
        if let Ok(part) = name_beside(alloc, name, PART) {
            drop(fs::remove_file(self, part.as_str()));
        }
    }

    fn open_log(&self, alloc: Global, name: &str) -> Result<Option<FileLines>, AllocError> {
        match open_lines(alloc, self, name) {
            Ok(lines) => Ok(Some(lines)),
            Err(error) => {
                if error.kind() == ErrorKind::OutOfMemory {
                    return Err(AllocError);
                }
                Ok(None)
            },
        }
    }

    fn write_file<O: Sink>(&self, alloc: Global, name: &str, text: &[u8], _out: &O) -> bool {
        put_file(self, alloc, name, text)
    }

    fn whole_path(&self, folder: &str) -> Result<String, CommandError> {
        match path::absolute(self, folder) {
            Ok(whole) => Ok(whole.into_string()),
            Err(error) => {
                if error.kind() == ErrorKind::OutOfMemory {
                    return Err(CommandError::Memory);
                }
                Err(CommandError::Io)
            },
        }
    }

    fn host(
        &self,
        alloc: Global,
        setup: HostSetup<'_>,
    ) -> Result<Watched<Masked<ProgramHost<HostRuntime>>, Progress>, AllocError> {
        let HostSetup {
            work,
            stubs,
            masks,
            progress,
        } = setup;
        let programs = programs_of(alloc, self, work, stubs)?;
        let progress = Progress::new(alloc, *self, progress, masks.copy(alloc)?);
        Ok(Watched::new(Masked::new(alloc, programs, masks), progress))
    }
}
