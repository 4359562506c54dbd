//! Three projections of two segments each, on six sites, without joins.
use crate::answers::{Ask, Refusal, Written};
use crate::plays::{Play, Step, expect_plays};
use cs_schema::FileName;
use cs_schema::samples::THREE_PROJECTIONS;
use std::test::Fail;
use test_support::catalogs::{AS_IT_IS, BY_ROWS};
use test_support::samples::ORDER_PARTS;

/// The rows (3, 20), (4, 10) of the first projection.
const UPPER_IDS: Written = (
    FileName::Seg { p: 0, s: 1 },
    91,
    "4353534547303031 0000 0001 00000002 0002
     03 01 0000000d 00000001 0000000000000003 01
     04 01 00000010 0000000000000014 000000000000000a",
);

/// The rows (2, 10), (4, 10) of the second projection.
const LOWER_VALUES: Written = (
    FileName::Seg { p: 1, s: 0 },
    94,
    "4353534547303031 0001 0000 00000002 0002
     04 01 00000010 0000000000000002 0000000000000004
     01 01 00000010 000000000000000a 00000001 00000002",
);

/// The files of the sites 2 and 3.
pub const LOST: [Written; 4] = [
    UPPER_IDS,
    (
        FileName::Del { p: 0, s: 1 },
        56,
        "435344454c303031 0000 0001 00000002 00000002 00000000",
    ),
    LOWER_VALUES,
    (
        FileName::Del { p: 1, s: 0 },
        56,
        "435344454c303031 0001 0000 00000002 00000002 00000000",
    ),
];

/// The files of the sites 1, 3 and 6: a segment of each projection.
const LOST_OF_EACH: [Written; 6] = [
    (
        FileName::Seg { p: 0, s: 0 },
        91,
        "4353534547303031 0000 0000 00000002 0002
         03 01 0000000d 00000001 0000000000000001 01
         04 01 00000010 000000000000001e 000000000000000a",
    ),
    (
        FileName::Del { p: 0, s: 0 },
        56,
        "435344454c303031 0000 0000 00000002 00000002 00000000",
    ),
    LOWER_VALUES,
    (
        FileName::Del { p: 1, s: 0 },
        56,
        "435344454c303031 0001 0000 00000002 00000002 00000000",
    ),
    (
        FileName::Seg { p: 2, s: 1 },
        82,
        "4353534547303031 0002 0001 00000001 0002
         04 01 00000008 0000000000000001
         03 01 0000000c 00000001 000000000000001e",
    ),
    (
        FileName::Del { p: 2, s: 1 },
        56,
        "435344454c303031 0002 0001 00000001 00000001 00000000",
    ),
];

const SOUND: [Step; 1] = [Step::Asked(&[
    Ask::Checked(2, Ok(4)),
    Ask::Checked(3, Err(Refusal::Unsafe(&[1, 3, 5]))),
    Ask::Files(&[2, 3], &LOST),
])];

const SOUND_PLAYS: [Play; 2] = [
    (AS_IT_IS, &ORDER_PARTS, &SOUND),
    (BY_ROWS, &ORDER_PARTS, &SOUND),
];

#[test]
fn sound_with_ample_memory(rt: HostRuntime) -> Result<(), Fail> {
    expect_plays(&rt, THREE_PROJECTIONS, &SOUND_PLAYS)
}

// No projection is left whole, but no row is in lost segments alone.
const SEGMENT_OF_EACH_PLAYS: [Play; 2] = [
    (
        BY_ROWS,
        &ORDER_PARTS,
        &[Step::Asked(&[Ask::Files(&[1, 3, 6], &LOST_OF_EACH)])],
    ),
    (
        AS_IT_IS,
        &ORDER_PARTS,
        &[Step::Asked(&[Ask::Refused(&[1, 3, 6], Refusal::Unsafe(&[1, 3, 6]))])],
    ),
];

#[test]
fn segment_of_each_lost(rt: HostRuntime) -> Result<(), Fail> {
    expect_plays(&rt, THREE_PROJECTIONS, &SEGMENT_OF_EACH_PLAYS)
}

const LOST_SEGMENT: FileName = FileName::Seg { p: 0, s: 1 };

const FIRST: FileName = FileName::Seg { p: 0, s: 0 };

const LEAST_DAMAGED: FileName = FileName::Seg { p: 1, s: 1 };

const LATER_DAMAGED: FileName = FileName::Del { p: 2, s: 0 };

// Files under lost names are not looked at; of the others the first bad one by name is answered.
const DAMAGED: [Step; 7] = [
    Step::OneByte(LOST_SEGMENT),
    Step::Asked(&[Ask::Files(&[2, 3], &LOST)]),
    Step::LastByteChanged(LEAST_DAMAGED),
    Step::LastByteChanged(LATER_DAMAGED),
    Step::Asked(&[Ask::Refused(&[2, 3], Refusal::Damaged(LEAST_DAMAGED))]),
    Step::TakenAway(FIRST),
    Step::Asked(&[Ask::Refused(&[2, 3], Refusal::Missing(FIRST))]),
];

const DAMAGED_PLAYS: [Play; 2] = [
    (AS_IT_IS, &ORDER_PARTS, &DAMAGED),
    (BY_ROWS, &ORDER_PARTS, &DAMAGED),
];

#[test]
fn files_damaged(rt: HostRuntime) -> Result<(), Fail> {
    expect_plays(&rt, THREE_PROJECTIONS, &DAMAGED_PLAYS)
}
