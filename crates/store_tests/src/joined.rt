//! Two projections that hold the table together, along joins, and a third that holds it alone.
use crate::answers::{Ask, Refusal, Written};
use crate::plays::{Play, Step, expect_plays};
use cs_schema::FileName;
use cs_schema::samples::SPLIT_COLUMNS;
use std::test::Fail;
use test_support::catalogs::{AS_IT_IS, BY_ROWS};
use test_support::samples::JOINED_PARTS;

/// The rows (2, 6, 8), (1, 5, 9), and the delta without items for two rows.
pub const LOST: [Written; 2] = [
    (
        FileName::Seg { p: 2, s: 0 },
        113,
        "4353534547303031 0002 0000 00000002 0003
         04 01 00000010 0000000000000002 0000000000000001
         04 01 00000010 0000000000000006 0000000000000005
         03 01 0000000d 00000001 0000000000000008 01",
    ),
    (
        FileName::Del { p: 2, s: 0 },
        56,
        "435344454c303031 0002 0000 00000002 00000002 00000000",
    ),
];

const TO_SECOND: [(u16, u32); 2] = [(0, 3), (0, 2)];

const TO_FIRST: [(u16, u32); 3] = [(0, 0), (0, 2), (0, 1)];

/// The files of the first site, and the join index that leads there.
const FIRST_FILES: [FileName; 4] = [
    FileName::Seg { p: 0, s: 0 },
    FileName::Del { p: 0, s: 0 },
    FileName::Jix { p: 0, s: 0, q: 1 },
    FileName::Jix { p: 1, s: 0, q: 0 },
];

const SOUND: [Step; 1] = [Step::Asked(&[
    Ask::Checked(1, Ok(2)),
    Ask::Checked(2, Err(Refusal::Unsafe(&[1, 3]))),
    Ask::Files(&[3], &LOST),
    Ask::Restored(&[1], &FIRST_FILES),
    Ask::Refused(&[9], Refusal::Site),
])];

const SOUND_PLAYS: [Play; 2] = [
    (AS_IT_IS, &JOINED_PARTS, &SOUND),
    (BY_ROWS, &JOINED_PARTS, &SOUND),
];

#[test]
fn sound(rt: HostRuntime) -> Result<(), Fail> {
    expect_plays(&rt, SPLIT_COLUMNS, &SOUND_PLAYS)
}

const SECOND_ASTRAY: Refusal = Refusal::Astray { p: 0, s: 0, row: 1 };

const FIRST_ASTRAY: Refusal = Refusal::Astray { p: 0, s: 0, row: 0 };

const BACK_ASTRAY: Refusal = Refusal::Astray { p: 1, s: 0, row: 0 };

const MISPLACED: Refusal = Refusal::Misplaced { p: 2, s: 0 };

const MISLED: Refusal = Refusal::Misled { p: 1, s: 0, q: 0 };

/// Join indexes to the second projection, each in place of the one before, and their answers.
const ASTRAY_TO_SECOND: [Step; 6] = [
    Step::Join(0, 0, 1, &[(0, 3), (0, 1)]),
    Step::Asked(&[
        Ask::Checked(1, Err(SECOND_ASTRAY)),
        Ask::Refused(&[3], SECOND_ASTRAY),
    ]),
    Step::Join(0, 0, 1, &[(0, 1), (0, 1)]),
    Step::Asked(&[
        Ask::Checked(1, Err(FIRST_ASTRAY)),
        Ask::Refused(&[3], FIRST_ASTRAY),
    ]),
    Step::Join(0, 0, 1, &[(0, 2), (0, 3)]),
    Step::Asked(&[Ask::Checked(1, Err(MISPLACED)), Ask::Refused(&[3], MISLED)]),
];

const ASTRAY_TO_SECOND_PLAYS: [Play; 2] = [
    (AS_IT_IS, &JOINED_PARTS, &ASTRAY_TO_SECOND),
    (BY_ROWS, &JOINED_PARTS, &ASTRAY_TO_SECOND),
];

#[test]
fn join_to_the_second_leads_astray(rt: HostRuntime) -> Result<(), Fail> {
    expect_plays(&rt, SPLIT_COLUMNS, &ASTRAY_TO_SECOND_PLAYS)
}

const ALL_MISLED: Step = Step::Asked(&[Ask::Checked(1, Err(MISLED)), Ask::Refused(&[3], MISLED)]);

const BACK_ALL_ASTRAY: Step = Step::Asked(&[
    Ask::Checked(1, Err(BACK_ASTRAY)),
    Ask::Refused(&[3], BACK_ASTRAY),
]);

/// Leads two rows to each other's row.
const CROSSED: Step = Step::Join(1, 0, 0, &[(0, 0), (0, 1), (0, 2)]);

/// Leads a row to no row.
const BEYOND: Step = Step::Join(1, 0, 0, &[(0, 0), (0, 3), (0, 1)]);

// The rows of an anchor do not follow the join back, but by rows each row is walked.
const ASTRAY_TO_FIRST_PLAYS: [Play; 2] = [
    (
        AS_IT_IS,
        &JOINED_PARTS,
        &[CROSSED, ALL_MISLED, BEYOND, ALL_MISLED],
    ),
    (
        BY_ROWS,
        &JOINED_PARTS,
        &[CROSSED, ALL_MISLED, BEYOND, BACK_ALL_ASTRAY],
    ),
];

#[test]
fn join_to_the_first_leads_astray(rt: HostRuntime) -> Result<(), Fail> {
    expect_plays(&rt, SPLIT_COLUMNS, &ASTRAY_TO_FIRST_PLAYS)
}
