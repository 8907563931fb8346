//! Room that is let go and handed out again.

use std::alloc::{AllocError, Global};

/// How much room is asked for: the C library learns of no more than 32 MiB.
const FIRST_ROOM: usize = 33_000_000;

/// Asks for room and lets it go at once. The C library maps room of a size that was not let go before apart, and gives it back
/// when it is let go; from here on it hands it out again, as that of a record's text for the text of its board.
#[inline(never)]
pub fn show_room(alloc: Global) {
    let room: Result<Vec<u8>, AllocError> = Vec::with_capacity(alloc, FIRST_ROOM);
    drop(room);
}
