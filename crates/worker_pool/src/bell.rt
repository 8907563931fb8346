//! What wakes the workers that have nothing to do.

use std::sync::{Condvar, Mutex, Wait};

/// How often the bell rang, whether a worker is at work for the clerk, and whether the workers are to end.
#[derive(Clone, Copy)]
struct Rung {
    times: u64,
    clerk: bool,
    over: bool,
}

/// A bell that rings whenever something was posted that may give work to others, or when the workers are to end.
#[derive(Drop)]
pub(crate) struct Bell {
    rung: Mutex<Rung>,
    rings: Condvar,
}

impl Bell {
    /// A bell that has not rung.
    pub(crate) fn new() -> Bell {
        Bell {
            rung: Mutex::new(Rung {
                times: 0,
                clerk: false,
                over: false,
            }),
            rings: Condvar::new(),
        }
    }

    /// How often it rang, or nothing where the workers are to end.
    pub(crate) fn heard<R: Wait>(&self, rt: &R) -> Option<u64> {
        let rung = *self.rung.lock(rt);
        if rung.over { None } else { Some(rung.times) }
    }

    /// Wakes one of the workers that wait. It looks for whatever there is to do, as each does before it waits.
    pub(crate) fn ring<R: Wait>(&self, rt: &R) {
        let mut rung = self.rung.lock(rt);
        rung.times = rung.times.wrapping_add(1);
        drop(rung);
        self.rings.notify_one();
    }

    /// Lets a worker look for what a clerk may do, unless another does. The answer is whether it may.
    pub(crate) fn take_clerk<R: Wait>(&self, rt: &R) -> bool {
        let mut rung = self.rung.lock(rt);
        let is_free = !rung.clerk;
        rung.clerk = true;
        is_free
    }

    /// Lets the next worker look for what a clerk may do, unless the bell has rung more than so often: then this one has to
    /// look again, since others went by. The answer is whether it is done.
    pub(crate) fn leave_clerk<R: Wait>(&self, rt: &R, heard: u64) -> bool {
        let mut rung = self.rung.lock(rt);
        let is_done = rung.times == heard;
        rung.clerk = !is_done;
        is_done
    }

    /// Tells all workers to end.
    pub(crate) fn stop<R: Wait>(&self, rt: &R) {
        self.rung.lock(rt).over = true;
        self.rings.notify_all();
    }

    /// Waits until it has rung more than so often, or the workers are to end.
    pub(crate) fn wait<R: Wait>(&self, rt: &R, heard: u64) {
        let mut rung = self.rung.lock(rt);
        for _ in rt.forever() {
            if rung.over || rung.times != heard {
                return;
            }
            rung = self.rings.wait(rt, rung);
        }
    }
}
