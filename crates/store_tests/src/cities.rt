//! Two projections on three sites, one of texts and in two segments, with a join each way.
use crate::answers::{Ask, Refusal, Written};
use crate::plays::{Play, Step, expect_plays};
use cs_schema::FileName;
use cs_schema::samples::CITIES;
use std::test::Fail;
use test_support::catalogs::{AS_IT_IS, BY_ROWS};
use test_support::columns::Column;
use test_support::files::Delta;
use test_support::samples::CITY_PARTS;
use test_support::stores::Parts;

const LOWER: FileName = FileName::Seg { p: 1, s: 0 };

const LOWER_DELTA: FileName = FileName::Del { p: 1, s: 0 };

const LOWER_JOIN: FileName = FileName::Jix { p: 1, s: 0, q: 0 };

const UPPER: FileName = FileName::Seg { p: 1, s: 1 };

const UPPER_DELTA: FileName = FileName::Del { p: 1, s: 1 };

const UPPER_JOIN: FileName = FileName::Jix { p: 1, s: 1, q: 0 };

const JOIN: FileName = FileName::Jix { p: 0, s: 0, q: 1 };

/// The rows ("la", 5), ("la", 3).
const LA: &str = "4353534547303031 0001 0000 00000002 0002
    01 02 0000000b 02 6c61 00000001 00000002
    04 01 00000010 0000000000000005 0000000000000003";

/// The delta without items for two rows.
const UNCHANGED: &str = "435344454c303031 0001 0000 00000002 00000002 00000000";

/// The files that the loss of the second site costs. The last three are those of both stores below.
const LOST: [Written; 4] = [
    (
        JOIN,
        68,
        "43534a4958303031 0000 0000 0001 00000003 0001 00000001 0000 00000001 0000 00000002",
    ),
    (LOWER, 89, LA),
    (LOWER_DELTA, 56, UNCHANGED),
    (
        LOWER_JOIN,
        62,
        "43534a4958303031 0001 0000 0000 00000002 0000 00000002 0000 00000003",
    ),
];

/// What the loss costs if a row of the first projection is deleted: its key leads nowhere, the keys after it stay.
const LOST_WITH_A_DEAD_KEY: [Written; 4] = [
    (
        JOIN,
        74,
        "43534a4958303031 0000 0000 0001 00000004
         0001 00000001 0000 00000000 0000 00000001 0000 00000002",
    ),
    (LOWER, 89, LA),
    (LOWER_DELTA, 56, UNCHANGED),
    (
        LOWER_JOIN,
        62,
        "43534a4958303031 0001 0000 0000 00000002 0000 00000003 0000 00000004",
    ),
];

/// The rows (1, "ny", 7), (3, "la", 5), (4, "la", 3). The second row of the first projection is deleted; its keys into
/// the lost segment differ from the new ones.
const WITH_A_DEAD_KEY: Parts = Parts {
    segments: &[
        (
            0,
            0,
            &[
                Column::Ints(&[1, 2, 3, 4]),
                Column::Texts(&["ny", "sf", "la", "la"]),
                Column::Ints(&[7, 9, 5, 3]),
            ],
        ),
        (1, 1, &[Column::Texts(&["ny"]), Column::Ints(&[7])]),
    ],
    deltas: &[(
        0,
        0,
        Delta {
            version: 1,
            rows: 4,
            top: 4,
            items: b"\0\0\0\x01\x02\0\0\0\x01",
        },
    )],
    joins: &[
        (0, 0, 1, &[(1, 1), (0, 0), (0, 2), (0, 3)]),
        (1, 1, 0, &[(0, 1)]),
    ],
};

const UPPER_FILES: [FileName; 4] = [JOIN, UPPER, UPPER_DELTA, UPPER_JOIN];

const ALL_BUT_THE_FIRST: [FileName; 7] = [
    JOIN,
    LOWER,
    LOWER_DELTA,
    LOWER_JOIN,
    UPPER,
    UPPER_DELTA,
    UPPER_JOIN,
];

const SOUND: [Step; 1] = [Step::Asked(&[
    Ask::Checked(0, Ok(3)),
    Ask::Checked(1, Err(Refusal::Unsafe(&[1]))),
    Ask::Checked(4, Err(Refusal::BadK)),
    Ask::Files(&[2], &LOST),
    Ask::Restored(&[3], &UPPER_FILES),
    Ask::Restored(&[2, 3], &ALL_BUT_THE_FIRST),
])];

const DEAD_KEY: [Step; 1] = [Step::Asked(&[Ask::Files(&[2], &LOST_WITH_A_DEAD_KEY)])];

const SOUND_PLAYS: [Play; 4] = [
    (AS_IT_IS, &CITY_PARTS, &SOUND),
    (BY_ROWS, &CITY_PARTS, &SOUND),
    (AS_IT_IS, &WITH_A_DEAD_KEY, &DEAD_KEY),
    (BY_ROWS, &WITH_A_DEAD_KEY, &DEAD_KEY),
];

#[test]
fn sound(rt: HostRuntime) -> Result<(), Fail> {
    expect_plays(&rt, CITIES, &SOUND_PLAYS)
}

/// The join index in which the second row has no key.
const LED_NOWHERE: Step = Step::Join(0, 0, 1, &[(1, 1), (0, 0), (0, 2)]);

const MISLED: Refusal = Refusal::Misled { p: 0, s: 0, q: 1 };

const ASTRAY: Refusal = Refusal::Astray { p: 0, s: 0, row: 1 };

const LED_NOWHERE_PLAYS: [Play; 2] = [
    (
        AS_IT_IS,
        &CITY_PARTS,
        &[LED_NOWHERE, Step::Asked(&[Ask::Refused(&[2], MISLED)])],
    ),
    (
        BY_ROWS,
        &CITY_PARTS,
        &[LED_NOWHERE, Step::Asked(&[Ask::Refused(&[2], ASTRAY)])],
    ),
];

#[test]
fn live_row_led_nowhere(rt: HostRuntime) -> Result<(), Fail> {
    expect_plays(&rt, CITIES, &LED_NOWHERE_PLAYS)
}
