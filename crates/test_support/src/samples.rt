//! The parts of small stores, under catalogs of `cs_schema::samples`.
use crate::columns::Column;
use crate::files::Delta;
use crate::stores::Parts;

/// The rows (1, "ny", 7), (2, "la", 5), (3, "la", 3).
pub const CITY_PARTS: Parts = Parts {
    segments: &[
        (
            0,
            0,
            &[
                Column::Ints(&[1, 2, 3]),
                Column::Texts(&["ny", "la", "la"]),
                Column::Ints(&[7, 5, 3]),
            ],
        ),
        (1, 0, &[Column::Texts(&["la", "la"]), Column::Ints(&[5, 3])]),
        (1, 1, &[Column::Texts(&["ny"]), Column::Ints(&[7])]),
    ],
    deltas: &[],
    joins: &[
        (0, 0, 1, &[(1, 1), (0, 1), (0, 2)]),
        (1, 0, 0, &[(0, 2), (0, 3)]),
        (1, 1, 0, &[(0, 1)]),
    ],
};

/// The rows (1, 5, 9), (2, 6, 8). The first row of the second projection is deleted, so its keys are 2 and 3.
pub const JOINED_PARTS: Parts = Parts {
    segments: &[
        (0, 0, &[Column::Ints(&[1, 2]), Column::Ints(&[5, 6])]),
        (1, 0, &[Column::Ints(&[7, 8, 9])]),
        (
            2,
            0,
            &[
                Column::Ints(&[2, 1]),
                Column::Ints(&[6, 5]),
                Column::Ints(&[8, 9]),
            ],
        ),
    ],
    deltas: &[(
        1,
        0,
        Delta {
            version: 1,
            rows: 3,
            top: 3,
            items: b"\0\0\0\x01\x02\0\0\0\0",
        },
    )],
    joins: &[
        (0, 0, 1, &[(0, 3), (0, 2)]),
        (1, 0, 0, &[(0, 0), (0, 2), (0, 1)]),
    ],
};

/// The rows (1, 30), (2, 10), (3, 20), (4, 10) in each order.
pub const ORDER_PARTS: Parts = Parts {
    segments: &[
        (0, 0, &[Column::Ints(&[1, 2]), Column::Ints(&[30, 10])]),
        (0, 1, &[Column::Ints(&[3, 4]), Column::Ints(&[20, 10])]),
        (1, 0, &[Column::Ints(&[2, 4]), Column::Ints(&[10, 10])]),
        (1, 1, &[Column::Ints(&[3, 1]), Column::Ints(&[20, 30])]),
        (
            2,
            0,
            &[Column::Ints(&[2, 4, 3]), Column::Ints(&[10, 10, 20])],
        ),
        (2, 1, &[Column::Ints(&[1]), Column::Ints(&[30])]),
    ],
    deltas: &[],
    joins: &[],
};
