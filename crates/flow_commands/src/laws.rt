//! Laws of the texts of programs, each the contract of a function that does nothing.

ghost use Rattle.flow_commands.specs.Laws.{OneCommand, OneCovering, OneCut, OneGiving, OneHearing, OneReading};

/// A text is split at the first place of a mark.
pub fn one_cut()
    ensures { OneCut }
{}

/// A text is masked in one way: a byte stands as it is where no mask stands, and three stars stand for the longest mask
/// where one does.
pub fn one_covering()
    ensures { OneCovering }
{}

/// The lines of a file of outputs or of variables are read as the items that they give, and refused where they give none:
/// for a line that is neither a pair nor the first of a block, for a name whose value may not stand, or for a block that stays
/// open.
pub fn one_reading()
    ensures { OneReading }
{}

/// The pairs of a file are those of its items that are kept, of each name the last one's, and no others.
pub fn one_giving()
    ensures { OneGiving }
{}

/// A line is read as a command exactly where it has the form of that command.
pub fn one_command()
    ensures { OneCommand }
{}

/// What a step printed is read line by line as commands and plain lines, but from a command that stops commands to the
/// line that resumes them every line is plain.
pub fn one_hearing()
    ensures { OneHearing }
{}
