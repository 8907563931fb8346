//! Boards as text.

use crate::page::Page;
use flow_model::{Board, Duplicate};
use plan_text::board_text;
use std::alloc::AllocError;

/// Writes a copy of a board, if there is one.
pub fn put_board(page: &mut Page<'_>, board: Result<Board, AllocError>) {
    if let Some(board) = page.have(board) {
        if let Some(twin) = page.have(board.copy(page.alloc)) {
            page.print(board_text(page.alloc, &twin));
        }
    }
}

/// Another page, with a board on it.
pub fn shown<'a>(page: &Page<'a>, board: Result<Board, AllocError>) -> Page<'a> {
    let mut shown = page.scratch();
    put_board(&mut shown, board);
    shown
}
