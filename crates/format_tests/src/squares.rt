//! A board played through by hand, and rounds of squares of which some fail.
ghost use Rattle.std.specs.Prelude.{◌≡◌, IfSome};
ghost use Rattle.std.specs.List.{Contains};

use cs_board::{Board, OpenGate, RunFault, Seat, Work, run};
use std::test::Fail;

// No piece has this number.
const NOWHERE: u32 = u32::MAX;

#[derive(Debug, Drop, PartialEq, Eq)]
pub enum SquareFault {
    Memory,
    Refused(u32),
}

// The square of each number below a count. Two numbers fail, and one runs out of memory.
#[derive(Drop)]
pub struct Squares {
    pub count: u32,
    pub first: u32,
    pub second: u32,
    pub wanting: u32,
}

impl Squares {
    pub fn of(count: u32) -> Squares {
        Squares {
            count,
            first: NOWHERE,
            second: NOWHERE,
            wanting: NOWHERE,
        }
    }

    pub fn refused_at(count: u32, first: u32, second: u32) -> Squares {
        Squares {
            count,
            first,
            second,
            wanting: NOWHERE,
        }
    }
}

impl Work for Squares {
    ghost use Rattle.std.proofs.Common.{rules, sym, ◌∙◌};
    ghost use Rattle.std.specs.Prelude.{◌≡◌, ◌*◌, ◌==◌, ◌||◌, Option, Some, None, true, false, if◌then◌else◌};
    ghost use Rattle.format_tests.specs.declared.squares.SquareFault.TheVariants.{Memory, Refused};

    type Out = u64;

    type Fault = SquareFault;

    ghost pieces = { λ work. work.count };

    ghost fault_at = { λ work i fault. fault ≡ (if i == work.first || i == work.second then Some (Refused i) else None) };

    ghost answers = { λ work i out. out ≡ i * i };

    ghost of_memory = { elim [ Memory ↦ true | Refused i ↦ false ] };

    fn count(&self) -> u32 {
        self.count
    }

    fn piece(&self, i: u32) -> Result<u64, SquareFault> {
        if i == self.wanting {
            return Err(SquareFault::Memory);
        }
        if i == self.first || i == self.second {
            return Err(SquareFault::Refused(i));
        }
        Ok(u64::from(i) * u64::from(i))
    }

    fn is_memory(fault: &SquareFault) -> bool {
        match fault {
            SquareFault::Memory => true,
            SquareFault::Refused(_) => false,
        }
    }

    ghost never_memory = { λ work i fault below at. Prim.search rules };

    ghost one_fault = { λ work i f g below at here. at ∙ sym here };
}

// Claims the numbers below 3 from two seats: 0 and 2 from the first, 1 from the second. The answer is 1 and 2.
fn draw_three(board: &Board, a: &mut Seat, b: &mut Seat) -> Option<(u32, u32)>
    requires at { (a.old.board ≡ board.now) × (b.old.board ≡ board.now) }
    requires running { (a.old.over ≡ 0) × (b.old.over ≡ 0) }
    ensures first { IfSome result (λ r. (b.new ≡ record b.old { drawn = b.new.drawn; over = 1 }) × Contains b.new.drawn r.0) }
    ensures second { IfSome result (λ r. (a.new ≡ record a.old { drawn = a.new.drawn; over = 1 }) × Contains a.new.drawn r.1) }
{
    let Some(0) = board.claim(a) else {
        return None;
    };
    let Some(first @ 1) = board.claim(b) else {
        return None;
    };
    let Some(second @ 2) = board.claim(a) else {
        return None;
    };
    if board.claim(a).is_some() || board.claim(b).is_some() {
        return None;
    }
    Some((first, second))
}

#[test]
fn look_sees_a_report(rt: HostRuntime) -> Result<(), Fail> {
    let (board, seat) = Board::open(rt.alloc(), 3, 2)?;
    let (mut a, mut b) = board.split(seat, 1);
    let Some((first, second)) = draw_three(&board, &mut a, &mut b) else {
        return Err(Fail::from("other numbers"));
    };
    let before = board.look(&mut a);
    board.report(&mut b, first);
    let of_first = board.look(&mut a);
    board.report(&mut a, second);
    let of_both = board.look(&mut a);
    let all = board.join(a, b);
    let least = board.close(all);
    assert_eq!(rt; (before, of_first, of_both, least), (u64::MAX, 1, 1, 1));
    Ok(())
}

#[test]
fn no_pieces(rt: HostRuntime) -> Result<(), Fail> {
    let (board, mut seat) = Board::open(rt.alloc(), 0, 1)?;
    assert!(rt; board.claim(&mut seat).is_none());
    assert!(rt; seat.ended() && seat.width() == 1);
    assert_eq!(rt; board.close(seat), u64::MAX);
    Ok(())
}

// Whether a round has these answers.
pub fn has_answers<F: Drop>(round: Result<Vec<u64>, RunFault<F>>, wanted: &[u64]) -> bool {
    match round {
        Ok(answers) => answers.as_slice() == wanted,
        Err(_) => false,
    }
}

// Whether a round ends at piece 1, which fails.
pub fn is_refused_at_one(round: Result<Vec<u64>, RunFault<SquareFault>>) -> bool {
    matches!(round, Err(RunFault::At(1, SquareFault::Refused(1))))
}

#[test]
fn squares_with_ample_memory(rt: HostRuntime) {
    let cases: [&[u64]; 2] = [&[], &[0, 1, 4, 9, 16]];
    for wanted in cases {
        let squares = Squares::of(wanted.len() as u32);
        for workers in [1, 2, 64] {
            let round = run(&rt, rt.alloc(), workers, &squares, &OpenGate);
            assert!(rt; has_answers(round, wanted), "{workers} workers");
        }
    }
}

#[test]
fn least_fault_with_ample_memory(rt: HostRuntime) {
    let squares = Squares::refused_at(5, 3, 1);
    for workers in [1, 2, 64] {
        let round = run(&rt, rt.alloc(), workers, &squares, &OpenGate);
        assert!(rt; is_refused_at_one(round), "{workers} workers");
    }
}

#[test]
fn wanting_memory_is_no_fault(rt: HostRuntime) {
    let squares = Squares {
        count: 5,
        first: 3,
        second: 4,
        wanting: 1,
    };
    for workers in [1, 2, 64] {
        let round = run(&rt, rt.alloc(), workers, &squares, &OpenGate);
        assert!(rt; matches!(round, Err(RunFault::Memory)));
    }
}
