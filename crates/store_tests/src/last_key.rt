//! A store whose primary key is not its first column.
use crate::answers::{Ask, Refusal, Written};
use crate::plays::{Play, Step, expect_plays};
use cs_schema::FileName;
use cs_schema::samples::TWO_ORDERS;
use std::test::Fail;
use test_support::catalogs::{Edit, SAFE_BY_ROWS};
use test_support::columns::Column;
use test_support::stores::Parts;

/// The rows (5, 2), (5, 4), (7, 1), (7, 3): equal ids are ordered by the second column, the key.
const BY_ID: &str = "4353534547303031 0000 0000 00000004 0002
    04 01 00000020 0000000000000005 0000000000000005 0000000000000007 0000000000000007
    04 01 00000020 0000000000000002 0000000000000004 0000000000000001 0000000000000003";

/// The rows by key.
const BY_KEY: &str = "4353534547303031 0001 0000 00000004 0002
    04 01 00000020 0000000000000007 0000000000000005 0000000000000007 0000000000000005
    04 01 00000020 0000000000000001 0000000000000002 0000000000000003 0000000000000004";

const FIRST: [Written; 2] = [
    (FileName::Seg { p: 0, s: 0 }, 126, BY_ID),
    (
        FileName::Del { p: 0, s: 0 },
        56,
        "435344454c303031 0000 0000 00000004 00000004 00000000",
    ),
];

const SECOND: [Written; 2] = [
    (FileName::Seg { p: 1, s: 0 }, 126, BY_KEY),
    (
        FileName::Del { p: 1, s: 0 },
        56,
        "435344454c303031 0001 0000 00000004 00000004 00000000",
    ),
];

const WHOLE: Parts = Parts {
    segments: &[
        (
            0,
            0,
            &[Column::Ints(&[5, 5, 7, 7]), Column::Ints(&[2, 4, 1, 3])],
        ),
        (
            1,
            0,
            &[Column::Ints(&[7, 5, 7, 5]), Column::Ints(&[1, 2, 3, 4])],
        ),
    ],
    deltas: &[],
    joins: &[],
};

const ANSWERED: Step = Step::Asked(&[
    Ask::Checked(1, Ok(4)),
    Ask::Files(&[1], &FIRST),
    Ask::Files(&[2], &SECOND),
]);

/// The rows (5, 2) and (7, 2) have the same key.
const ONE_KEY_TWICE: Step = Step::Segment(
    0,
    0,
    &[Column::Ints(&[5, 5, 7, 7]), Column::Ints(&[2, 4, 2, 3])],
);

const MISPLACED: Refusal = Refusal::Misplaced { p: 0, s: 0 };

const KEY_IS_LAST: Edit = ("key = \"id\"", "key = \"v\"");

const PLAYS: [Play; 2] = [
    (
        &[KEY_IS_LAST],
        &WHOLE,
        &[
            ANSWERED,
            ONE_KEY_TWICE,
            Step::Asked(&[Ask::Refused(&[2], Refusal::Twice)]),
        ],
    ),
    (
        &[KEY_IS_LAST, SAFE_BY_ROWS],
        &WHOLE,
        &[
            ANSWERED,
            ONE_KEY_TWICE,
            Step::Asked(&[Ask::Refused(&[2], MISPLACED)]),
        ],
    ),
];

#[test]
fn key_is_the_last_column(rt: HostRuntime) -> Result<(), Fail> {
    expect_plays(&rt, TWO_ORDERS, &PLAYS)
}
