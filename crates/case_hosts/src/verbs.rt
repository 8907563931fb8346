//! Which verbs there are.

use crate::{board_calls, host_calls, pool_calls, ticket_calls};
use case_reader::Page;
use std::sync::Wait;
use std::thread::Threads;

/// Does what a verb of these asks, and answers whether it is one.
pub fn perform<R: Threads + Wait + Sync>(rt: &R, page: &mut Page<'_>) -> bool {
    match page.word(0) {
        "pool" | "meet" | "rounds" | "settles" | "agree" => pool_calls::perform(rt, page),
        "posts" | "threads" => board_calls::perform(rt, page),
        "tickets" => ticket_calls::perform(rt, page),
        _ => return host_calls::perform(page),
    }
    true
}
