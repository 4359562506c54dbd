//! Rows that lead to lost segments of two projections on one walk.
use crate::answers::{Ask, Refusal};
use crate::plays::{Play, Step, expect_plays};
use cs_schema::FileName;
use std::test::Fail;
use test_support::catalogs::{AS_IT_IS, BY_ROWS};
use test_support::columns::Column;
use test_support::stores::Parts;

/// The first projection has every column; the two others have two segments each, and each has a join with the first
/// both ways.
const STAR: &str = r#"version = 1
table = "t"
key = "id"
sites = 5
column = [{name = "id", kind = "int"}, {name = "city", kind = "int"}, {name = "v", kind = "int"}]
[[projection]]
name = "a"
columns = ["id", "city", "v"]
codes = [4, 4, 4]
sort = ["id"]
cuts = []
sites = [1]
joins = ["b", "c"]
[[projection]]
name = "b"
columns = ["city", "v"]
codes = [4, 4]
sort = ["city"]
cuts = [2]
sites = [2, 3]
joins = ["a"]
[[projection]]
name = "c"
columns = ["v", "id"]
codes = [4, 4]
sort = ["v"]
cuts = [6]
sites = [4, 5]
joins = ["a"]
"#;

/// The rows (1, 2, 7), (2, 1, 5), (3, 1, 8), (4, 3, 3). The second is in the first segment of both other projections.
const WHOLE: Parts = Parts {
    segments: &[
        (
            0,
            0,
            &[
                Column::Ints(&[1, 2, 3, 4]),
                Column::Ints(&[2, 1, 1, 3]),
                Column::Ints(&[7, 5, 8, 3]),
            ],
        ),
        (1, 0, &[Column::Ints(&[1, 1]), Column::Ints(&[5, 8])]),
        (1, 1, &[Column::Ints(&[2, 3]), Column::Ints(&[7, 3])]),
        (2, 0, &[Column::Ints(&[3, 5]), Column::Ints(&[4, 2])]),
        (2, 1, &[Column::Ints(&[7, 8]), Column::Ints(&[1, 3])]),
    ],
    deltas: &[],
    joins: &[
        (0, 0, 1, &[(1, 1), (0, 1), (0, 2), (1, 2)]),
        (0, 0, 2, &[(1, 1), (0, 2), (1, 2), (0, 1)]),
        (1, 0, 0, &[(0, 2), (0, 3)]),
        (1, 1, 0, &[(0, 1), (0, 4)]),
        (2, 0, 0, &[(0, 4), (0, 2)]),
        (2, 1, 0, &[(0, 1), (0, 3)]),
    ],
};

/// What the loss of the sites 2 and 4 costs.
const LOST: [FileName; 8] = [
    FileName::Jix { p: 0, s: 0, q: 1 },
    FileName::Jix { p: 0, s: 0, q: 2 },
    FileName::Seg { p: 1, s: 0 },
    FileName::Del { p: 1, s: 0 },
    FileName::Jix { p: 1, s: 0, q: 0 },
    FileName::Seg { p: 2, s: 0 },
    FileName::Del { p: 2, s: 0 },
    FileName::Jix { p: 2, s: 0, q: 0 },
];

const SOUND: Step = Step::Asked(&[Ask::Checked(0, Ok(4)), Ask::Restored(&[2, 4], &LOST)]);

/// The second row has no key in the third projection.
const NO_KEY: Step = Step::Join(0, 0, 2, &[(1, 1), (0, 0), (1, 2), (0, 1)]);

const MISLED: Refusal = Refusal::Misled { p: 0, s: 0, q: 2 };

const ASTRAY: Refusal = Refusal::Astray { p: 0, s: 0, row: 1 };

const PLAYS: [Play; 2] = [
    (
        AS_IT_IS,
        &WHOLE,
        &[SOUND, NO_KEY, Step::Asked(&[Ask::Refused(&[2, 4], MISLED)])],
    ),
    (
        BY_ROWS,
        &WHOLE,
        &[SOUND, NO_KEY, Step::Asked(&[Ask::Refused(&[2, 4], ASTRAY)])],
    ),
];

#[test]
fn rows_lead_to_two_lost_segments(rt: HostRuntime) -> Result<(), Fail> {
    expect_plays(&rt, STAR, &PLAYS)
}
