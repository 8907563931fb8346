//! Laws of the definitions, as contracts of functions that do nothing.

ghost use Rattle.ready_queue.specs.Laws.{AloneInOrder, NoneTakenTwice, PutterKnows, PutterStays, TakenInOrder, TakerKnows, TakerStays, WholePuts, WholeTakes};

/// A ticket that is taken was put: by the pass whose name stands beside it, in the order of its puts, and
/// as often at least as it is taken.
pub fn taken_was_put()
    ensures order { TakenInOrder }
    ensures bag { NoneTakenTwice }
{}

/// The queue holds in order what its only pass has put and not taken.
pub fn alone_in_order()
    ensures { AloneInOrder }
{}

/// While no other pass is out, a put is refused exactly where the queue is full, and a take finds no
/// ticket exactly where it is empty.
pub fn whole_knows_room()
    ensures puts { WholePuts }
    ensures takes { WholeTakes }
{}

/// Where by a rule of the house only one pass takes, it finds no ticket only where it took at least as many
/// as it put, whoever else puts.
pub fn taker_knows_tickets()
    ensures knows { TakerKnows }
    ensures stays { TakerStays }
{}

/// Where by a rule of the house only one pass puts, it is refused only where what it put is at least what
/// it took and the room that the queue has, whoever else takes.
pub fn putter_knows_room()
    ensures knows { PutterKnows }
    ensures stays { PutterStays }
{}
