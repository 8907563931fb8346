//! Laws of lists that are lawful over a host, each a clause of a function that does nothing.

ghost use Rattle.step_host.specs.Laws.{CalledLegsHaveCalls, OpenCallsAreLast, CallFollows, LawfulBegins, LawfulGrows, NoneIsLawful, RecordsAreCounted, RecordsAreLawful, RecordsAreScripts};

use crate::host::StepHost;

/// A list is lawful over a host entry by entry: no entries are; one more that the table accepts keeps it so, where an
/// answer is admitted for the call that is open; and so the first entries of a lawful list are lawful.
pub fn lawful_lists_grow<H: StepHost>()
    ensures none { (host : H) → NoneIsLawful (H.admits host) }
    ensures last { (host : H) → LawfulGrows (H.admits host) }
    ensures first { (host : H) → LawfulBegins (H.admits host) }
    ensures call { CallFollows }
{}

/// A call that is open is the one that the last Begin of its leg replied with, with no End since; and each leg that is in
/// a call has one, of its next step.
pub fn open_calls_are_last()
    ensures last { OpenCallsAreLast }
    ensures called { CalledLegsHaveCalls }
{}

/// The answers of a legal list, each for the step that its leg was at, are well-formed and one a step; and over them
/// the list is lawful.
pub fn records_are_lawful()
    ensures script { RecordsAreScripts }
    ensures lawful { RecordsAreLawful }
{}

/// What a legal list records can be counted in its entries: each answer is for the step of its leg that was begun last.
pub fn records_are_counted()
    ensures { RecordsAreCounted }
{}
