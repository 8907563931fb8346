//! Laws of the definitions, as contracts of functions that do nothing.

ghost use Rattle.matrix_expand.specs.Laws.{SizeCounts, ValuesOfVariables, SameIsEqual, ExcludesAreOut, OriginalsStay, IncludesAlone, EmptyEntriesPass};

/// There are as many choices as the size of the variables says.
pub fn size_counts()
    ensures { SizeCounts }
{}

/// Each combination gives every variable one of its values, or is an include as it stands.
pub fn values_of_variables()
    ensures { ValuesOfVariables }
{}

/// Two values are the same exactly where they are equal.
pub fn same_is_equal()
    ensures { SameIsEqual }
{}

/// No original that an exclude names is left.
pub fn excludes_are_out()
    ensures { ExcludesAreOut }
{}

/// No include overwrites a value of an original.
pub fn originals_stay()
    ensures { OriginalsStay }
{}

/// Without variables, and where every original is taken out, each include stands alone.
pub fn includes_alone()
    ensures { IncludesAlone }
{}

/// Entries without pairs are passed over.
pub fn empty_entries_pass()
    ensures { EmptyEntriesPass }
{}
