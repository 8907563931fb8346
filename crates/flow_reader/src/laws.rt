//! Laws of the definitions, as contracts of functions that do nothing.

ghost use Rattle.flow_reader.specs.Laws.{DefaultsLayOver};

/// A step's shell and directory are its own, else the job's default, else the workflow's.
pub fn defaults_lay_over()
    ensures { DefaultsLayOver }
{}
