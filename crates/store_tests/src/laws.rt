//! The limits of the laws about accepted losses and answers: stores one step past them.
use crate::answers::{Ask, Refusal, Written};
use crate::joined;
use crate::plays::{Play, Step, expect_plays};
use cs_schema::FileName;
use cs_schema::samples::{SPLIT_COLUMNS, THREE_PROJECTIONS};
use std::test::Fail;
use test_support::catalogs::AS_IT_IS;
use test_support::columns::Column;
use test_support::files::changed;
use test_support::samples::{JOINED_PARTS, ORDER_PARTS};

// ---- changed sites: three projections, safe for each loss of two sites

/// The first site has the row (1, 31) instead of (1, 30).
const FIRST_LIES: Step = Step::Segment(0, 0, &[Column::Ints(&[1, 2]), Column::Ints(&[31, 10])]);

/// So has the fourth.
const FOURTH_LIES: Step = Step::Segment(1, 1, &[Column::Ints(&[3, 1]), Column::Ints(&[20, 31])]);

/// So has the sixth.
const SIXTH_LIES: Step = Step::Segment(2, 1, &[Column::Ints(&[1]), Column::Ints(&[31])]);

const SECOND_MISPLACED: Step = Step::Asked(&[Ask::Checked(
    2,
    Err(Refusal::Misplaced { p: 1, s: 1 }),
)]);

const THIRD_MISPLACED: Step = Step::Asked(&[Ask::Checked(
    2,
    Err(Refusal::Misplaced { p: 2, s: 1 }),
)]);

const FOUR_ROWS: Step = Step::Asked(&[Ask::Checked(2, Ok(4))]);

// Changes on up to two sites are refused. After changes on three, a check for two takes another table for the original.
const LIES: [Play; 7] = [
    (AS_IT_IS, &ORDER_PARTS, &[FIRST_LIES, SECOND_MISPLACED]),
    (AS_IT_IS, &ORDER_PARTS, &[FOURTH_LIES, SECOND_MISPLACED]),
    (AS_IT_IS, &ORDER_PARTS, &[SIXTH_LIES, THIRD_MISPLACED]),
    (
        AS_IT_IS,
        &ORDER_PARTS,
        &[FIRST_LIES, FOURTH_LIES, THIRD_MISPLACED],
    ),
    (
        AS_IT_IS,
        &ORDER_PARTS,
        &[FIRST_LIES, SIXTH_LIES, SECOND_MISPLACED],
    ),
    (
        AS_IT_IS,
        &ORDER_PARTS,
        &[FOURTH_LIES, SIXTH_LIES, SECOND_MISPLACED],
    ),
    (
        AS_IT_IS,
        &ORDER_PARTS,
        &[FIRST_LIES, FOURTH_LIES, SIXTH_LIES, FOUR_ROWS],
    ),
];

#[test]
fn one_site_more_is_changed_than_is_detected(rt: HostRuntime) -> Result<(), Fail> {
    expect_plays(&rt, THREE_PROJECTIONS, &LIES)
}

/// The rows (1, 30), (2, 10) of the first projection.
const FIRST_TRUE: Written = (
    FileName::Seg { p: 0, s: 0 },
    91,
    "4353534547303031 0000 0000 00000002 0002
     03 01 0000000d 00000001 0000000000000001 01
     04 01 00000010 000000000000001e 000000000000000a",
);

/// The rows (1, 31), (2, 10).
const FIRST_FALSE: Written = (
    FileName::Seg { p: 0, s: 0 },
    91,
    "4353534547303031 0000 0000 00000002 0002
     03 01 0000000d 00000001 0000000000000001 01
     04 01 00000010 000000000000001f 000000000000000a",
);

/// The delta without items for two rows.
const FIRST_UNCHANGED: Written = (
    FileName::Del { p: 0, s: 0 },
    56,
    "435344454c303031 0000 0000 00000002 00000002 00000000",
);

/// The rows (3, 20), (1, 30) of the second projection.
const SECOND_TRUE: Written = (
    FileName::Seg { p: 1, s: 1 },
    110,
    "4353534547303031 0001 0001 00000002 0002
     04 01 00000010 0000000000000003 0000000000000001
     01 01 00000020 0000000000000014 00000001 00000001 000000000000001e 00000002 00000001",
);

const SECOND_UNCHANGED: Written = (
    FileName::Del { p: 1, s: 1 },
    56,
    "435344454c303031 0001 0001 00000002 00000002 00000000",
);

/// The row (1, 31) of the third.
const THIRD_FALSE: Written = (
    FileName::Seg { p: 2, s: 1 },
    82,
    "4353534547303031 0002 0001 00000001 0002
     04 01 00000008 0000000000000001
     03 01 0000000c 00000001 000000000000001f",
);

const THIRD_UNCHANGED: Written = (
    FileName::Del { p: 2, s: 1 },
    56,
    "435344454c303031 0002 0001 00000001 00000001 00000000",
);

// One site lies: its loss is the only accepted loss of one site.
const ONE_LIE: [Step; 2] = [
    FOURTH_LIES,
    Step::Asked(&[
        Ask::Refused(&[1], Refusal::Misplaced { p: 2, s: 1 }),
        Ask::Refused(&[2], Refusal::Misplaced { p: 0, s: 0 }),
        Ask::Refused(&[3], Refusal::Misplaced { p: 1, s: 1 }),
        Ask::Files(&[4], &[SECOND_TRUE, SECOND_UNCHANGED]),
        Ask::Refused(&[5], Refusal::Misplaced { p: 1, s: 1 }),
        Ask::Refused(&[6], Refusal::Misplaced { p: 1, s: 1 }),
    ]),
];

const ONE_LIE_PLAY: [Play; 1] = [(AS_IT_IS, &ORDER_PARTS, &ONE_LIE)];

#[test]
fn one_lie_is_corrected(rt: HostRuntime) -> Result<(), Fail> {
    expect_plays(&rt, THREE_PROJECTIONS, &ONE_LIE_PLAY)
}

// One site is gone and one lies, which is one too many: two losses of two sites are accepted, with two tables.
const ONE_GONE_AND_ONE_LIE: [Step; 4] = [
    FOURTH_LIES,
    Step::TakenAway(FileName::Seg { p: 0, s: 0 }),
    Step::TakenAway(FileName::Del { p: 0, s: 0 }),
    Step::Asked(&[
        Ask::Files(
            &[1, 4],
            &[FIRST_TRUE, FIRST_UNCHANGED, SECOND_TRUE, SECOND_UNCHANGED],
        ),
        Ask::Files(
            &[1, 6],
            &[FIRST_FALSE, FIRST_UNCHANGED, THIRD_FALSE, THIRD_UNCHANGED],
        ),
    ]),
];

const ONE_LIE_MORE_PLAY: [Play; 1] = [(AS_IT_IS, &ORDER_PARTS, &ONE_GONE_AND_ONE_LIE)];

#[test]
fn one_lie_more_than_is_corrected(rt: HostRuntime) -> Result<(), Fail> {
    expect_plays(&rt, THREE_PROJECTIONS, &ONE_LIE_MORE_PLAY)
}

// ---- join indexes: two projections that hold the table together, and a third that holds it alone

/// What the loss of the second site costs: its new keys are 1 and 2, so the first's join index is rewritten.
const RENUMBERED: [Written; 4] = [
    (
        FileName::Jix { p: 0, s: 0, q: 1 },
        62,
        "43534a4958303031 0000 0000 0001 00000002 0000 00000002 0000 00000001",
    ),
    (
        FileName::Seg { p: 1, s: 0 },
        72,
        "4353534547303031 0001 0000 00000002 0001
         04 01 00000010 0000000000000008 0000000000000009",
    ),
    (
        FileName::Del { p: 1, s: 0 },
        56,
        "435344454c303031 0001 0000 00000002 00000002 00000000",
    ),
    (
        FileName::Jix { p: 1, s: 0, q: 0 },
        62,
        "43534a4958303031 0001 0000 0000 00000002 0000 00000002 0000 00000001",
    ),
];

// The join index of the answer is put in place, then one with a row without a key.
const CHANGED_JOIN: [Step; 6] = [
    Step::LastByteChanged(FileName::Seg { p: 1, s: 0 }),
    Step::Asked(&[Ask::Files(&[2], &RENUMBERED)]),
    Step::Join(0, 0, 1, &[(0, 2), (0, 1)]),
    Step::Asked(&[Ask::Files(&[2], &RENUMBERED)]),
    Step::Join(0, 0, 1, &[(0, 2), (0, 0)]),
    Step::Asked(&[Ask::Refused(&[2], Refusal::Misled { p: 0, s: 0, q: 1 })]),
];

const CHANGED_JOIN_PLAY: [Play; 1] = [(AS_IT_IS, &JOINED_PARTS, &CHANGED_JOIN)];

#[test]
fn survivor_changed_in_another_way_than_written(rt: HostRuntime) -> Result<(), Fail> {
    expect_plays(&rt, SPLIT_COLUMNS, &CHANGED_JOIN_PLAY)
}

/// What the loss of the first site costs.
const FIRST_AGAIN: [Written; 4] = [
    (
        FileName::Seg { p: 0, s: 0 },
        94,
        "4353534547303031 0000 0000 00000002 0002
         04 01 00000010 0000000000000001 0000000000000002
         04 01 00000010 0000000000000005 0000000000000006",
    ),
    (
        FileName::Del { p: 0, s: 0 },
        56,
        "435344454c303031 0000 0000 00000002 00000002 00000000",
    ),
    (
        FileName::Jix { p: 0, s: 0, q: 1 },
        62,
        "43534a4958303031 0000 0000 0001 00000002 0000 00000003 0000 00000002",
    ),
    (
        FileName::Jix { p: 1, s: 0, q: 0 },
        68,
        "43534a4958303031 0001 0000 0000 00000003 0000 00000000 0000 00000002 0000 00000001",
    ),
];

// The first site names the second's rows by each other's keys: a loss of either is accepted, a loss of neither is not.
const CROSSED_KEYS: [Step; 2] = [
    Step::Join(0, 0, 1, &[(0, 2), (0, 3)]),
    Step::Asked(&[
        Ask::Files(&[1], &FIRST_AGAIN),
        Ask::Files(&[2], &RENUMBERED),
        Ask::Refused(&[3], Refusal::Misled { p: 1, s: 0, q: 0 }),
        Ask::Checked(1, Err(Refusal::Misplaced { p: 2, s: 0 })),
        Ask::Checked(2, Err(Refusal::Unsafe(&[1, 3]))),
    ]),
];

const CROSSED_KEYS_PLAY: [Play; 1] = [(AS_IT_IS, &JOINED_PARTS, &CROSSED_KEYS)];

#[test]
fn loss_that_misses_one_pair(rt: HostRuntime) -> Result<(), Fail> {
    expect_plays(&rt, SPLIT_COLUMNS, &CROSSED_KEYS_PLAY)
}
