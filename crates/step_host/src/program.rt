//! The host that starts programs.

ghost use Rattle.std.specs.Prelude.{◌≡◌, ◌↔◌, IfOk, IfSome, true};
ghost use Rattle.std.specs.Process.{exit_code};
ghost use Rattle.flow_model.specs.Answer.{is_well_formed};
ghost use Rattle.flow_model.specs.declared.event.Answer.{Answer};
ghost use Rattle.flow_model.specs.declared.reply.StepCall.{StepCall};
ghost use Rattle.step_host.specs.Program as spec;

use crate::command::command_of;
use crate::ending::{ended, refusal_of};
use crate::fault::HostFault;
use crate::files::{FileBytes, Printed, printed_file, read_named, write_file};
use crate::host::{StepHost, WatchedHost};
use crate::launch::{
    Launch, env_file, err_file, log_file, other_shell, out_file, print_file, script_file,
    script_launch, stub_launch,
};
use crate::log::keep_log;
use crate::watch::{Nobody, Refusal, Unstarted, Watch, answered};
use flow_model::{Answer, CallWork, Mapping, Shell, StepCall, Text};
use std::alloc::{AllocError, Global};
use std::fs::{File, Files};
use std::io::ErrorKind;
use std::process::{Child, Command, ExitStatus, OpenProcess, Processes, Stdio};
use std::{fs, io};

/// How many bytes the file of outputs or of variables of a step may have at most.
const MOST_BYTES: u64 = 67_108_864;

/// The host that starts a program for each step: a script by its shell, an action by the stub that is named for it.
#[derive(Drop)]
pub struct ProgramHost<R> {
    runtime: R,
    alloc: Global,
    work: Text,
    base: Mapping<Text>,
    stubs: Mapping<Text>,
}

/// What was done, if it could be. Want of memory is told apart.
fn unless_memory<T: Drop>(done: io::Result<T>) -> Result<Option<T>, AllocError>
    ensures { spec.Sorts done result }
{
    match done {
        Ok(found) => Ok(Some(found)),
        Err(error) => {
            if error.kind() == ErrorKind::OutOfMemory {
                return Err(AllocError);
            }
            Ok(None)
        },
    }
}

/// What was done, or why it could not be. Want of memory is told apart.
fn or_kind<T: Drop>(done: io::Result<T>) -> Result<Result<T, ErrorKind>, AllocError>
    ensures { spec.SortsKind done result }
{
    match done {
        Ok(found) => Ok(Ok(found)),
        Err(error) => {
            let kind = error.kind();
            if kind == ErrorKind::OutOfMemory {
                return Err(AllocError);
            }
            Ok(Err(kind))
        },
    }
}

/// A program that was started, and the files into which it prints, to be read.
#[derive(Drop)]
struct Started<P: OpenProcess + Drop> {
    child: Child<P>,
    out: File,
    err: File,
}

/// A program that was started, or why none was.
type Start<P> = Result<Started<P>, Unstarted>;

impl<R: Processes + Files<File = File> + Sync> ProgramHost<R> {
    /// The host that starts programs by this runtime, writes its files in the folder `work` and starts programs there or
    /// below. The folder is named by its whole path, since programs are told where their files are. Programs have the
    /// variables of the base, and over them those of the step. An action is the program that `stubs` has for it. It
    /// admits every answer that is well-formed, since nothing is known of what a program does, and declines no call. It
    /// keeps the allocator.
    pub fn new(
        alloc: Global,
        runtime: R,
        work: Text,
        base: Mapping<Text>,
        stubs: Mapping<Text>,
    ) -> ProgramHost<R>
        ensures admits { (call : StepCall) (answer : Answer)
            → ⟦<ProgramHost<R> as StepHost>⟧.admits result call answer
            ↔ (is_well_formed answer ≡ true) }
        ensures answers { (call : StepCall)
            → ⟦<ProgramHost<R> as StepHost>⟧.declines result call → ⊥ }
        ensures work { result.work ≡ work }
        ensures base { result.base ≡ base }
        ensures stubs { result.stubs ≡ stubs }
    {
        ProgramHost {
            runtime,
            alloc,
            work,
            base,
            stubs,
        }
    }
}

impl<R: Processes + Files<File = File>> ProgramHost<R> {
    /// Writes a file anew. The answer is whether it could be written.
    fn writes(&self, name: &Text, bytes: &[u8]) -> Result<bool, AllocError> {
        let written = unless_memory(write_file(&self.runtime, name.as_str(), bytes))?;
        Ok(written.is_some())
    }

    /// Makes the files empty that a program writes and that hold what it printed. The answer is whether they could be.
    fn clears(&self, call: &StepCall) -> Result<bool, AllocError> {
        let log = log_file(self.alloc, self.work.as_str(), call.leg, call.step)?;
        Ok(self.writes(&log, b"")? && self.clears_pairs(call)?)
    }

    /// Makes the files empty of a call's outputs and of its variables. The answer is whether they could be.
    fn clears_pairs(&self, call: &StepCall) -> Result<bool, AllocError> {
        let out = out_file(self.alloc, self.work.as_str(), call)?;
        let env = env_file(self.alloc, self.work.as_str(), call)?;
        Ok(self.writes(&out, b"")? && self.writes(&env, b"")?)
    }

    /// Why a file cannot be written in the work folder.
    fn unwritten(&self) -> Unstarted {
        if self.is_folder(self.work.as_str()) {
            return Unstarted::NoFile;
        }
        Unstarted::NoFolder
    }

    /// Whether a folder of that name is there.
    fn is_folder(&self, name: &str) -> bool {
        match fs::metadata(&self.runtime, name) {
            Ok(found) => found.is_dir(),
            Err(_) => false,
        }
    }

    /// Starts the program of a call, or tells why it cannot be started.
    fn start(&self, call: &StepCall, launch: &Launch) -> Result<Start<R::Started>, AllocError>
        requires { spec.IsLaunchOf self.now.work self.now.stubs call.now launch.now }
    {
        let out = print_file(self.alloc, self.work.as_str(), call)?;
        let err = err_file(self.alloc, self.work.as_str(), call)?;
        match self.start_into(launch, out.as_str(), err.as_str()) {
            Ok(started) => Ok(Ok(started)),
            Err(error) => Ok(Err(self.why(launch, error.kind())?)),
        }
    }

    /// Starts a program that prints into files, which have these names until they are open.
    fn start_into(&self, launch: &Launch, out: &str, err: &str) -> io::Result<Started<R::Started>> {
        let out = printed_file(&self.runtime, out)?;
        let err = printed_file(&self.runtime, err)?;
        let command = command_of(self.alloc, &self.base, launch)?;
        self.spawn(launch, command, out, err)
    }

    /// Starts a program over the variables of the base, with no input; what it prints goes into files.
    fn spawn(
        &self,
        _launch: &Launch,
        mut command: Command,
        out: Printed<File>,
        err: Printed<File>,
    ) -> io::Result<Started<R::Started>>
        requires { spec.IsCommandOf self.now.base _launch.now command }
    {
        command.stdin(Stdio::null()).stdout(out.0).stderr(err.0);
        Ok(Started {
            child: command.spawn(&self.runtime)?,
            out: out.1,
            err: err.1,
        })
    }

    /// Why a program cannot be started, by the kind of the error. Want of memory is told apart.
    fn why(&self, launch: &Launch, kind: ErrorKind) -> Result<Unstarted, AllocError> {
        if kind == ErrorKind::OutOfMemory {
            return Err(AllocError);
        }
        if self.is_folder(launch.folder.as_str()) {
            return Ok(Unstarted::NoProgram(kind));
        }
        Ok(Unstarted::NoFolder)
    }

    /// Starts a script by this shell.
    #[tactic(auto, using(crate::proofs::Launches::script_by))]
    fn start_by(
        &self,
        call: &StepCall,
        shell: Shell,
        dir: &Option<Text>,
    ) -> Result<Start<R::Started>, AllocError>
        requires { spec.IsStartedBy call.now.work shell dir.now }
    {
        let launch = script_launch(self.alloc, self.work.as_str(), call, shell, dir)?;
        self.start(call, &launch)
    }

    /// Starts a script by its shell, or by the one that stands in for it.
    #[tactic(auto, using(crate::proofs::Launches::first_by, crate::proofs::Launches::other_by))]
    fn start_somehow(
        &self,
        call: &StepCall,
        shell: Shell,
        dir: &Option<Text>,
    ) -> Result<Start<R::Started>, AllocError>
        requires { spec.AsksScript call.now.work shell dir.now }
    {
        match self.start_by(call, shell, dir)? {
            Ok(started) => Ok(Ok(started)),
            Err(why) => match other_shell(shell) {
                Some(other) => self.start_by(call, other, dir),
                None => Ok(Err(why)),
            },
        }
    }

    /// Writes a script and starts it.
    fn start_script(
        &self,
        call: &StepCall,
        text: &Text,
        shell: Shell,
        dir: &Option<Text>,
    ) -> Result<Start<R::Started>, AllocError>
        requires { spec.AsksScript call.now.work shell dir.now }
    {
        let file = script_file(self.alloc, self.work.as_str(), call)?;
        if !self.clears(call)? || !self.writes(&file, text.as_str().as_bytes())? {
            return Ok(Err(self.unwritten()));
        }
        self.start_somehow(call, shell, dir)
    }

    /// Starts the stub of an action.
    #[tactic(auto, using(crate::proofs::Launches::stub_by))]
    fn start_stub(
        &self,
        call: &StepCall,
        program: &Text,
        given: &Mapping<Text>,
    ) -> Result<Start<R::Started>, AllocError>
        requires { spec.AsksStub self.now.stubs call.now.work program.now given.now }
    {
        if !self.clears(call)? {
            return Ok(Err(self.unwritten()));
        }
        let launch = stub_launch(
            self.alloc,
            self.work.as_str(),
            call,
            program.as_str(),
            given,
        )?;
        self.start(call, &launch)
    }

    /// Starts the program of a call. An action for which no stub is named has none.
    fn start_call(&self, call: &StepCall) -> Result<Start<R::Started>, AllocError> {
        match &call.work {
            CallWork::Script { text, shell, dir } => self.start_script(call, text, *shell, dir),
            CallWork::Uses { uses, given } => match self.stubs.get(uses.as_str()) {
                Some(program) => self.start_stub(call, program, given),
                None => Ok(Err(Unstarted::NoStub)),
            },
        }
    }

    /// Keeps what a program printed so far, or says why that could not be.
    fn keeps(
        &self,
        call: &StepCall,
        out: File,
        err: File,
    ) -> Result<Result<(), ErrorKind>, AllocError> {
        let name = log_file(self.alloc, self.work.as_str(), call.leg, call.step)?;
        or_kind(keep_log(&self.runtime, name.as_str(), out, err))
    }

    /// The file of a call's outputs, if it can be read.
    fn outputs(&self, call: &StepCall) -> Result<Result<FileBytes, ErrorKind>, AllocError>
        ensures { IfOk result (λ found.
            IfOk found (λ file. file.name ≡ spec.out_file self.now.work call.now)) }
    {
        let name = out_file(self.alloc, self.work.as_str(), call)?;
        or_kind(read_named(self.alloc, &self.runtime, name, MOST_BYTES))
    }

    /// The file of a call's variables, if it can be read.
    fn env(&self, call: &StepCall) -> Result<Result<FileBytes, ErrorKind>, AllocError>
        ensures { IfOk result (λ found.
            IfOk found (λ file. file.name ≡ spec.env_file self.now.work call.now)) }
    {
        let name = env_file(self.alloc, self.work.as_str(), call)?;
        or_kind(read_named(self.alloc, &self.runtime, name, MOST_BYTES))
    }

    /// Waits until a program has ended, whatever it leaves behind, and answers for it, or says why the answer is bad output.
    fn finished(
        &self,
        call: &StepCall,
        started: Started<R::Started>,
    ) -> Result<Result<Answer, Refusal>, AllocError>
        ensures { IfOk result (λ end. IfOk end (λ a. is_well_formed a ≡ true)) }
    {
        let Started {
            mut child,
            out,
            err,
        } = started;
        let ended = or_kind(child.wait())?;
        if let Err(kind) = self.keeps(call, out, err)? {
            return Ok(Err(Refusal::NoLog(kind)));
        }
        match ended {
            Ok(status) => self.answer(call, status),
            Err(kind) => Ok(Err(Refusal::NoEnd(kind))),
        }
    }

    /// The answer of a program with this exit status.
    #[tactic(auto, using(crate::proofs::Answered::answered_by))]
    fn answer(
        &self,
        call: &StepCall,
        status: ExitStatus,
    ) -> Result<Result<Answer, Refusal>, AllocError>
        ensures answered { IfOk result (λ end. spec.AnsweredBy (exit_code status) end) }
        ensures well_formed { IfOk result (λ end. IfOk end (λ a. is_well_formed a ≡ true)) }
    {
        match self.outputs(call)? {
            Ok(outputs) => self.answer_with(call, status, &outputs),
            Err(kind) => Ok(Err(Refusal::NoOutputs(kind))),
        }
    }

    /// The answer of a program with this exit status, which wrote this into the file of its outputs.
    #[tactic(auto, using(crate::proofs::Answered::answered_with))]
    fn answer_with(
        &self,
        call: &StepCall,
        status: ExitStatus,
        outputs: &FileBytes,
    ) -> Result<Result<Answer, Refusal>, AllocError>
        requires { outputs.now.name ≡ spec.out_file self.now.work call.now }
        ensures answered { IfOk result
            (λ end. spec.AnsweredWith (exit_code status) outputs.now.bytes.items end) }
        ensures well_formed { IfOk result (λ end. IfOk end (λ a. is_well_formed a ≡ true)) }
    {
        match self.env(call)? {
            Ok(env) => {
                let answer = self.answer_of(call, status, outputs, &env)?;
                Ok(self.told(answer, outputs, &env))
            },
            Err(kind) => Ok(Err(Refusal::NoVariables(kind))),
        }
    }

    /// An answer, or why it is bad output: one of these files is refused.
    fn told(&self, answer: Answer, outputs: &FileBytes, env: &FileBytes) -> Result<Answer, Refusal>
        ensures { spec.Answers answer outputs.now.bytes.items env.now.bytes.items result }
    {
        if matches!(answer, Answer::BadOutput) {
            return Err(refusal_of(self.alloc, outputs.bytes(), env.bytes()));
        }
        Ok(answer)
    }

    /// The answer of a program with this exit status, which wrote these files of its outputs and of its variables.
    fn answer_of(
        &self,
        _call: &StepCall,
        status: ExitStatus,
        outputs: &FileBytes,
        env: &FileBytes,
    ) -> Result<Answer, AllocError>
        requires outputs { outputs.now.name ≡ spec.out_file self.now.work _call.now }
        requires env { env.now.name ≡ spec.env_file self.now.work _call.now }
        ensures answer { IfOk result (λ a.
            a ≡ spec.ended (exit_code status) outputs.now.bytes.items env.now.bytes.items) }
        ensures well_formed { IfOk result (λ a. is_well_formed a ≡ true) }
    {
        ended(self.alloc, status, outputs.bytes(), env.bytes())
    }

    /// Plays a call, and tells whether a program was started for it.
    fn play_call<W: Watch>(&self, call: &StepCall, watch: &W) -> Result<Answer, AllocError>
        ensures { IfOk result (λ a. is_well_formed a ≡ true) }
    {
        match self.start_call(call)? {
            Ok(started) => {
                watch.started(call);
                let finished = self.finished(call, started)?;
                Ok(answered(call, finished, watch))
            },
            Err(why) => {
                watch.unstarted(call, why);
                Ok(Answer::NotStarted)
            },
        }
    }
}

impl<R: Processes + Files<File = File> + Sync> StepHost for ProgramHost<R> {
    ghost admits = { λ _ _ answer. is_well_formed answer ≡ true };

    ghost declines = { λ _ _. ⊥ };

    fn play(&self, call: &StepCall) -> Result<Answer, HostFault> {
        self.play_watched(call, &Nobody)
    }

    ghost admits_well_formed = { λ _ _ _ is. is };
}

impl<R: Processes + Files<File = File> + Sync> WatchedHost for ProgramHost<R> {
    fn play_watched<W: Watch>(&self, call: &StepCall, watch: &W) -> Result<Answer, HostFault> {
        Ok(self.play_call(call, watch)?)
    }
}
