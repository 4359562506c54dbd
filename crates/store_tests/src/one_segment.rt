//! Two projections of one segment each, on two sites. Each site alone holds the table.
use crate::answers::{Ask, Refusal, Written};
use crate::plays::{Play, Step, expect_plays};
use cs_schema::FileName;
use cs_schema::samples::TWO_ORDERS;
use std::test::Fail;
use test_support::catalogs::{AS_IT_IS, BY_ROWS};
use test_support::columns::Column;
use test_support::files::Delta;
use test_support::stores::Parts;

const SEG: FileName = FileName::Seg { p: 0, s: 0 };

const DEL: FileName = FileName::Del { p: 0, s: 0 };

/// The rows (1, 30), (2, 10), (3, 20), (4, 10), plain.
const PLAIN: &str = "4353534547303031 0000 0000 00000004 0002
    04 01 00000020 0000000000000001 0000000000000002 0000000000000003 0000000000000004
    04 01 00000020 000000000000001e 000000000000000a 0000000000000014 000000000000000a";

/// The second column as runs.
const RUNS: &str = "4353534547303031 0000 0000 00000004 0002
    04 01 00000020 0000000000000001 0000000000000002 0000000000000003 0000000000000004
    01 01 00000040 000000000000001e 00000001 00000001  000000000000000a 00000002 00000001
                   0000000000000014 00000003 00000001  000000000000000a 00000004 00000001";

/// The first column as differences, the second as bitmaps.
const BITMAPS: &str = "4353534547303031 0000 0000 00000004 0002
    03 01 0000000f 00000001 0000000000000001 01 01 01
    02 01 00000044 000000000000000a 00000004 00000001 00000001 00000001 00000001
                   0000000000000014 00000002 00000002 00000001
                   000000000000001e 00000002 00000000 00000001";

/// The delta without items for four rows.
const UNCHANGED: &str = "435344454c303031 0000 0000 00000004 00000004 00000000";

/// The delta without items for three rows.
const THREE_UNCHANGED: &str = "435344454c303031 0000 0000 00000003 00000003 00000000";

/// The rows (1, 30), (3, 20), (4, 10).
const WITHOUT_THE_SECOND: &str = "4353534547303031 0000 0000 00000003 0002
    04 01 00000018 0000000000000001 0000000000000003 0000000000000004
    04 01 00000018 000000000000001e 0000000000000014 000000000000000a";

/// The rows (1, 30), (3, 20), (4, 15).
const WITH_A_NEW_CELL: &str = "4353534547303031 0000 0000 00000003 0002
    04 01 00000018 0000000000000001 0000000000000003 0000000000000004
    04 01 00000018 000000000000001e 0000000000000014 000000000000000f";

const NO_PARTS: Parts = Parts {
    segments: &[],
    deltas: &[],
    joins: &[],
};

/// What survives the loss of the first site.
const SURVIVOR: Parts = Parts {
    segments: &[(
        1,
        0,
        &[Column::Ints(&[2, 4, 3, 1]), Column::Ints(&[10, 10, 20, 30])],
    )],
    deltas: &[],
    joins: &[],
};

/// The first row of the survivor is deleted.
const FIRST_DELETED: Delta = Delta {
    version: 1,
    rows: 4,
    top: 4,
    items: b"\0\0\0\x01\x02\0\0\0\0",
};

/// The first row is deleted in a first layer; a second layer sets the cell of the row that is now first to 15.
const THEN_CHANGED: Delta = Delta {
    version: 2,
    rows: 4,
    top: 4,
    items: b"\x02\0\0\0\x01\x02\0\0\0\0\0\0\0\x01\x03\0\0\0\0\x01\0\0\0\0\0\0\0\x0f",
};

const DEL_UNCHANGED: Written = (DEL, 56, UNCHANGED);

const DEL_THREE_UNCHANGED: Written = (DEL, 56, THREE_UNCHANGED);

const AS_PLAIN: [Written; 2] = [(SEG, 126, PLAIN), DEL_UNCHANGED];

const AS_RUNS: [Written; 2] = [(SEG, 158, RUNS), DEL_UNCHANGED];

const AS_BITMAPS: [Written; 2] = [(SEG, 145, BITMAPS), DEL_UNCHANGED];

/// The encodings of the lost segment, and its files.
const CODES: [Play; 3] = [
    (
        AS_IT_IS,
        &SURVIVOR,
        &[Step::Asked(&[Ask::Files(&[1], &AS_PLAIN)])],
    ),
    (
        &[("codes = [4, 4]", "codes = [4, 1]")],
        &SURVIVOR,
        &[Step::Asked(&[Ask::Files(&[1], &AS_RUNS)])],
    ),
    (
        &[("codes = [4, 4]", "codes = [3, 2]")],
        &SURVIVOR,
        &[Step::Asked(&[Ask::Files(&[1], &AS_BITMAPS)])],
    ),
];

#[test]
fn is_rebuilt_in_the_codes_of_the_catalog_with_ample_memory(rt: HostRuntime) -> Result<(), Fail> {
    expect_plays(&rt, TWO_ORDERS, &CODES)
}

const ONE_LESS: [Written; 2] = [(SEG, 110, WITHOUT_THE_SECOND), DEL_THREE_UNCHANGED];

const ONE_LESS_AND_CHANGED: [Written; 2] = [(SEG, 110, WITH_A_NEW_CELL), DEL_THREE_UNCHANGED];

const CHANGED_IMAGES: [Step; 4] = [
    Step::Delta(1, 0, FIRST_DELETED),
    Step::Asked(&[Ask::Files(&[1], &ONE_LESS)]),
    Step::Delta(1, 0, THEN_CHANGED),
    Step::Asked(&[Ask::Files(&[1], &ONE_LESS_AND_CHANGED)]),
];

const CHANGED_IMAGES_PLAY: [Play; 1] = [(AS_IT_IS, &SURVIVOR, &CHANGED_IMAGES)];

#[test]
fn is_rebuilt_from_a_changed_image(rt: HostRuntime) -> Result<(), Fail> {
    expect_plays(&rt, TWO_ORDERS, &CHANGED_IMAGES_PLAY)
}

/// The segment of the first site.
const FIRST_SEGMENT: Step = Step::Segment(
    0,
    0,
    &[Column::Ints(&[1, 2, 3, 4]), Column::Ints(&[30, 10, 20, 10])],
);

const WHOLE_ANSWERS: [Step; 2] = [
    FIRST_SEGMENT,
    Step::Asked(&[
        Ask::Checked(1, Ok(4)),
        Ask::Checked(2, Err(Refusal::Unsafe(&[1, 2]))),
        Ask::Files(&[], &[]),
        Ask::Restored(&[1], &[SEG, DEL]),
        Ask::Refused(&[3], Refusal::Site),
        Ask::Refused(&[1, 2], Refusal::Unsafe(&[1, 2])),
    ]),
];

const WHOLE_ANSWERS_PLAY: [Play; 1] = [(AS_IT_IS, &SURVIVOR, &WHOLE_ANSWERS)];

#[test]
fn loses_sites_of_the_catalog(rt: HostRuntime) -> Result<(), Fail> {
    expect_plays(&rt, TWO_ORDERS, &WHOLE_ANSWERS_PLAY)
}

const IN_PART: [Step; 4] = [
    Step::Asked(&[Ask::Refused(&[2], Refusal::Missing(SEG))]),
    FIRST_SEGMENT,
    Step::LastByteCut(SEG),
    Step::Asked(&[Ask::Refused(&[2], Refusal::Damaged(SEG))]),
];

const IN_PART_PLAY: [Play; 1] = [(AS_IT_IS, &NO_PARTS, &IN_PART)];

#[test]
fn survives_in_part(rt: HostRuntime) -> Result<(), Fail> {
    expect_plays(&rt, TWO_ORDERS, &IN_PART_PLAY)
}

const ONE_KEY_TWICE: Step = Step::Segment(
    1,
    0,
    &[Column::Ints(&[2, 4, 3, 2]), Column::Ints(&[10, 10, 20, 30])],
);

const MISPLACED: Refusal = Refusal::Misplaced { p: 1, s: 0 };

const KEYS_TWICE: [Play; 2] = [
    (
        AS_IT_IS,
        &NO_PARTS,
        &[
            ONE_KEY_TWICE,
            Step::Asked(&[Ask::Refused(&[1], Refusal::Twice)]),
        ],
    ),
    (
        BY_ROWS,
        &NO_PARTS,
        &[ONE_KEY_TWICE, Step::Asked(&[Ask::Refused(&[1], MISPLACED)])],
    ),
];

#[test]
fn has_a_primary_key_twice(rt: HostRuntime) -> Result<(), Fail> {
    expect_plays(&rt, TWO_ORDERS, &KEYS_TWICE)
}
