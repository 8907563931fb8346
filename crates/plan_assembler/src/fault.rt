//! Why there is no plan.

ghost use Rattle.std.specs.Prelude.{◌≡◌};
ghost use Rattle.plan_assembler.specs.Faults.{plan_fault_name, plan_fault_text};
ghost use Rattle.plan_assembler.specs.Refusals.{IsTextFault};
ghost use Rattle.plan_assembler.specs.declared.fault.PlanFault.TheVariants.{Memory};

use expr_reader::ExprFault;
use matrix_expand::MatrixFault;
use std::alloc::{AllocError, AllocFailed};
use std::fmt;
use thiserror::Error;

/// Where a text stands that is evaluated, by the numbers that runs and jobs have in the plan.
#[derive(Clone, Copy, Debug)]
pub enum FaultPlace {
    /// In the workflow of a run, outside of its jobs.
    Run(u64),
    /// In a job or one of its steps.
    Job(u64),
}

/// Why there is no plan.
#[derive(Clone, Copy, Debug, Error)]
pub enum PlanFault {
    /// A job needs what is no job of its workflow.
    UnknownNeed,
    /// A job needs itself, directly or not.
    Cycle,
    /// No workflow has the job.
    UnknownJob,
    /// No workflow is to run.
    NoWorkflow,
    /// There are more runs, jobs, steps or legs than the limits allow.
    TooMany,
    /// A text at this place cannot be read.
    Expr(FaultPlace, ExprFault),
    /// The matrix of the job with this number has no combinations.
    Matrix(u64, MatrixFault),
    /// There is no memory.
    Memory,
}

impl PlanFault {
    /// The fault's name, without what is inside.
    pub fn name(self) -> &'static str
        ensures { result.now ≡ plan_fault_name self }
    {
        match self {
            PlanFault::UnknownNeed => "UnknownNeed",
            PlanFault::Cycle => "Cycle",
            PlanFault::UnknownJob => "UnknownJob",
            PlanFault::NoWorkflow => "NoWorkflow",
            PlanFault::TooMany => "TooMany",
            PlanFault::Expr(_, _) => "Expr",
            PlanFault::Matrix(_, _) => "Matrix",
            PlanFault::Memory => "Memory",
        }
    }
}

/// The name and the fault inside, as `Expr UnclosedText at 0`.
impl fmt::Display for PlanFault {
    ghost use Rattle.std.specs.Prelude.{Some};

    ghost output = { λ fault. Some (plan_fault_text fault) };

    fn fmt<W: fmt::Write>(&self, f: &mut fmt::Formatter<W>) -> fmt::Result {
        match self {
            PlanFault::Expr(_, fault) => write!(f, "Expr {fault}"),
            PlanFault::Matrix(_, fault) => write!(f, "Matrix {}", fault.name()),
            PlanFault::UnknownNeed
            | PlanFault::Cycle
            | PlanFault::UnknownJob
            | PlanFault::NoWorkflow
            | PlanFault::TooMany
            | PlanFault::Memory => f.write_str(self.name()),
        }
    }
}

impl From<AllocError> for PlanFault {
    ghost from_gives = { λ _ e. e ≡ Memory };

    fn from(_: AllocError) -> PlanFault {
        PlanFault::Memory
    }
}

impl<T: Drop> From<AllocFailed<T>> for PlanFault {
    ghost from_gives = { λ _ e. e ≡ Memory };

    fn from(_: AllocFailed<T>) -> PlanFault {
        PlanFault::Memory
    }
}

/// The fault of a text at a place.
#[tactic(auto, unfolding(crate::specs::Refusals::Answered))]
pub(crate) fn at_place(place: FaultPlace, fault: ExprFault) -> PlanFault
    ensures { IsTextFault place fault result }
{
    if fault.is_memory() {
        return PlanFault::Memory;
    }
    PlanFault::Expr(place, fault)
}
