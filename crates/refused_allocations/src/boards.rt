//! A claim board, from the first claim to its end.
use crate::attempt::{Answer, Report, allocate};
use cs_board::Board;
use std::alloc::{AllocError, Global};

/// Opens a board for three numbers and two seats, and plays it to its end.
pub fn play(alloc: Global, before: u64) -> Report {
    let granted = allocate(alloc, before);
    if granted < before {
        return Report::Before(granted);
    }
    let answer = match play_all(alloc) {
        Ok(true) => Answer::Complete,
        Ok(false) => Answer::Wrong,
        Err(_) => Answer::Memory,
    };
    Report::made(alloc, answer)
}

/// Whether each step answers what it has to.
fn play_all(alloc: Global) -> Result<bool, AllocError> {
    let (board, seat) = Board::open(alloc, 3, 2)?;
    let (mut a, mut b) = board.split(seat, 1);
    let Some(zero) = board.claim(&mut a) else {
        return Ok(false);
    };
    let Some(one) = board.claim(&mut b) else {
        return Ok(false);
    };
    let Some(two) = board.claim(&mut a) else {
        return Ok(false);
    };
    if board.claim(&mut a).is_some() {
        return Ok(false);
    }
    if board.claim(&mut b).is_some() {
        return Ok(false);
    }
    let unseen = board.look(&mut a);
    board.report(&mut b, one);
    let seen = board.look(&mut a);
    board.report(&mut a, two);
    let still = board.look(&mut a);
    let all = board.join(a, b);
    let least = board.close(all);
    Ok([zero, one, two] == [0, 1, 2] && [unseen, seen, still, least] == [u64::MAX, 1, 1, 1])
}
