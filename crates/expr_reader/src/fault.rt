//! What is wrong with a text.

ghost use Rattle.std.specs.Prelude.{◌≡◌, is_none};
ghost use Rattle.expr_reader.specs.Faults.{fault_at, fault_name, fault_place, fault_text};
ghost use Rattle.expr_reader.specs.declared.fault.Refusal.TheVariants.{Memory};

use std::alloc::{AllocError, AllocFailed};
use std::fmt;
use thiserror::Error;

/// Why a text is no expression, template or condition, with the byte from the start of the text at
/// which the fault stands.
#[derive(Clone, Copy, Error)]
pub enum ExprFault {
    /// A text without its closing quote; the offset is that of its first quote.
    UnclosedText(usize),
    /// A run of number characters that is no whole number in range.
    BadNumber(usize),
    /// A byte that begins no token.
    BadChar(usize),
    /// A token, or the end, where the grammar has another.
    Unexpected(usize),
    /// A name that is no context, no function and no literal, and that no parenthesis follows.
    UnknownName(usize),
    /// A name before a parenthesis that is no context, no function and no literal.
    UnknownFunction(usize),
    /// The end of a call with another number of arguments than its function takes.
    ArgumentCount(usize),
    /// The place at which the tree would be deeper than 50.
    TooDeep(usize),
    /// An expression of more than 20,000 bytes, or a text of more than 1,048,576.
    TooLong(usize),
    /// `${{` without its `}}`.
    UnclosedTemplate(usize),
    /// A template that names a status function.
    StatusHere(usize),
    /// No memory was left.
    Memory(usize),
}

impl ExprFault {
    /// The fault's name.
    pub fn name(self) -> &'static str
        ensures { result.now ≡ fault_name self }
    {
        match self {
            ExprFault::UnclosedText(_) => "UnclosedText",
            ExprFault::BadNumber(_) => "BadNumber",
            ExprFault::BadChar(_) => "BadChar",
            ExprFault::Unexpected(_) => "Unexpected",
            ExprFault::UnknownName(_) => "UnknownName",
            ExprFault::UnknownFunction(_) => "UnknownFunction",
            ExprFault::ArgumentCount(_) => "ArgumentCount",
            ExprFault::TooDeep(_) => "TooDeep",
            ExprFault::TooLong(_) => "TooLong",
            ExprFault::UnclosedTemplate(_) => "UnclosedTemplate",
            ExprFault::StatusHere(_) => "StatusHere",
            ExprFault::Memory(_) => "Memory",
        }
    }

    /// How many bytes of the text stand before the fault.
    pub fn place(self) -> usize
        ensures { result ≡ fault_place self }
    {
        match self {
            ExprFault::UnclosedText(place)
            | ExprFault::BadNumber(place)
            | ExprFault::BadChar(place)
            | ExprFault::Unexpected(place)
            | ExprFault::UnknownName(place)
            | ExprFault::UnknownFunction(place)
            | ExprFault::ArgumentCount(place)
            | ExprFault::TooDeep(place)
            | ExprFault::TooLong(place)
            | ExprFault::UnclosedTemplate(place)
            | ExprFault::StatusHere(place)
            | ExprFault::Memory(place) => place,
        }
    }

    /// Whether the text is not at fault: no memory was left.
    pub fn is_memory(self) -> bool
        ensures { result ≡ is_none (fault_at self) }
    {
        match self {
            ExprFault::Memory(_) => true,
            ExprFault::UnclosedText(_)
            | ExprFault::BadNumber(_)
            | ExprFault::BadChar(_)
            | ExprFault::Unexpected(_)
            | ExprFault::UnknownName(_)
            | ExprFault::UnknownFunction(_)
            | ExprFault::ArgumentCount(_)
            | ExprFault::TooDeep(_)
            | ExprFault::TooLong(_)
            | ExprFault::UnclosedTemplate(_)
            | ExprFault::StatusHere(_) => false,
        }
    }
}

/// The name and the place, as `Unexpected at 4`.
impl fmt::Display for ExprFault {
    ghost use Rattle.std.specs.Prelude.{Some};

    ghost output = { λ fault. Some (fault_text fault) };

    fn fmt<W: fmt::Write>(&self, f: &mut fmt::Formatter<W>) -> fmt::Result {
        write!(f, "{} at {}", self.name(), self.place())
    }
}

/// As a derive shows it: `Unexpected(4)`.
impl fmt::Debug for ExprFault {
    fn fmt<W: fmt::Write>(&self, f: &mut fmt::Formatter<W>) -> fmt::Result {
        f.debug_tuple(self.name()).field(&self.place()).finish()
    }
}

/// What is wrong, without its place.
#[derive(Clone, Copy)]
pub(crate) enum Fault {
    UnclosedText,
    BadNumber,
    BadChar,
    Unexpected,
    UnknownName,
    UnknownFunction,
    ArgumentCount,
    TooDeep,
    TooLong,
    UnclosedTemplate,
    StatusHere,
}

/// A fault of the text, or want of memory.
#[derive(Clone, Copy)]
pub(crate) enum Refusal {
    Fault(Fault),
    Memory,
}

impl<T: Drop> From<AllocFailed<T>> for Refusal {
    ghost from_gives = { λ _ e. e ≡ Memory };

    fn from(_failed: AllocFailed<T>) -> Refusal {
        Refusal::Memory
    }
}

impl From<AllocError> for Refusal {
    ghost from_gives = { λ _ e. e ≡ Memory };

    fn from(_failed: AllocError) -> Refusal {
        Refusal::Memory
    }
}
