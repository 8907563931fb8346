//! A board with all that its lines can tell, and the reply that calls an action.

use flow_model::{
    Board, CallWork, DoneStep, Job, JobState, Leg, LegState, Mapping, Member, Outcome, Reply, Run,
    RunState, Sequence, StepCall, Text, What,
};
use std::alloc::{AllocError, Global};

/// A pair alone.
pub fn pair(alloc: Global, name: &str, text: &str) -> Result<Mapping<Text>, AllocError> {
    let text = Text::from_str(alloc, text)?;
    let mut pairs = Mapping::empty(alloc);
    pairs.set(alloc, name, text)?;
    Ok(pairs)
}

/// A leg in a state, with nothing else to tell.
fn leg(alloc: Global, state: LegState) -> Leg {
    Leg {
        state,
        stop: false,
        group: None,
        steps: Sequence::empty(alloc),
        outputs: Mapping::empty(alloc),
    }
}

/// A step that failed, was tolerated and set a variable.
fn step(alloc: Global) -> Result<DoneStep, AllocError> {
    Ok(DoneStep {
        outcome: Outcome::Failure,
        conclusion: Outcome::Success,
        outputs: Mapping::empty(alloc),
        env: pair(alloc, "A b", "1\n2")?,
    })
}

/// A leg that was told to stop, in a group, with a step that is done and an output.
fn stopped_leg(alloc: Global) -> Result<Leg, AllocError> {
    let group = Some(Text::from_str(alloc, "a\"b")?);
    let steps = vec![in alloc; step(alloc)?]?;
    let outputs = pair(alloc, "o", "7")?;
    let state = LegState::Ended {
        result: Outcome::Failure,
        tolerated: true,
    };
    Ok(Leg {
        state,
        stop: true,
        group,
        steps: Sequence::new(steps),
        outputs,
    })
}

/// A job with that leg, one in a call and one that was admitted, and a job that was shut.
fn jobs(alloc: Global) -> Result<Sequence<Job>, AllocError> {
    let stopped = stopped_leg(alloc)?;
    let in_call = LegState::Running {
        worker: 3,
        in_call: true,
    };
    let in_call = leg(alloc, in_call);
    let legs = vec![in alloc; stopped, in_call, leg(alloc, LegState::Admitted)]?;
    let open = Job {
        state: JobState::Open,
        legs: Sequence::new(legs),
    };
    let shut = Job {
        state: JobState::Shut(Outcome::Skipped),
        legs: Sequence::empty(alloc),
    };
    Ok(Sequence::new(vec![in alloc; open, shut]?))
}

/// A board of one run that waits for its group and was told to stop, with these jobs.
pub fn board(alloc: Global) -> Result<Board, AllocError> {
    let group = Some(Text::from_str(alloc, "g")?);
    let jobs = jobs(alloc)?;
    let run = Run {
        state: RunState::Waiting,
        stop: true,
        group,
        jobs,
    };
    let runs = Sequence::new(vec![in alloc; run]?);
    let ends = Sequence::empty(alloc);
    Ok(Board { runs, ends })
}

/// The reply that calls an action without inputs.
pub fn reply(alloc: Global) -> Result<Reply, AllocError> {
    let uses = Text::from_str(alloc, "a/b@v1")?;
    let given = Mapping::empty(alloc);
    let call = StepCall {
        leg: 1,
        step: 2,
        work: CallWork::Uses { uses, given },
        env: Mapping::empty(alloc),
    };
    Ok(Reply {
        what: What::Call(call),
        admitted: Some(Member::Leg(1)),
        displaced: None,
        stopped: None,
    })
}
