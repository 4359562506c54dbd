//! Safe losses and plans.
use cs_catalog::read_catalog;
use cs_safety::{alive, ksafe, plan, safe};
use cs_schema::samples::{CITIES, SPLIT_COLUMNS, THREE_PROJECTIONS, TWO_ORDERS};
use cs_schema::{Catalog, Loss};
use std::alloc::{AllocGlobal, Global};
use std::process::Abort;
use test_support::catalogs::{BY_ROWS, edited};

/// The catalog of a text, with safety of whole projections.
fn whole(rt: &(impl Abort + AllocGlobal), text: &str) -> Catalog {
    read_catalog(rt.alloc(), text.as_bytes()).expect(rt, "a catalog")
}

/// The catalog with safety by rows.
fn by_rows(rt: &(impl Abort + AllocGlobal), text: &str) -> Catalog {
    let text = edited(rt.alloc(), text, BY_ROWS).expect(rt, "memory");
    whole(rt, text.as_str())
}

/// Whether this many lost sites are safe, or the fault has this text.
fn answers(alloc: Global, catalog: &Catalog, k: u8, wanted: &str) -> bool {
    match ksafe(catalog, k) {
        Ok(()) => wanted == "safe",
        Err(fault) => match format!(in alloc; "{fault}") {
            Ok(text) => text.as_str() == wanted,
            Err(_) => false,
        },
    }
}

/// Catalogs, and their answers for 0, 1, 2 and 3 lost sites.
const ANSWERS: [(&str, [&str; 4]); 4] = [
    (
        TWO_ORDERS,
        ["safe", "safe", "unsafe loss: 1,2", "unsafe loss: 1,2"],
    ),
    (
        CITIES,
        ["safe", "unsafe loss: 1", "unsafe loss: 1", "unsafe loss: 1"],
    ),
    (
        THREE_PROJECTIONS,
        ["safe", "safe", "safe", "unsafe loss: 1,3,5"],
    ),
    (
        SPLIT_COLUMNS,
        ["safe", "safe", "unsafe loss: 1,3", "unsafe loss: 1,3"],
    ),
];

/// Whether a catalog has these answers, and refuses four sites.
fn answers_all(alloc: Global, catalog: &Catalog, wanted: &[&str; 4]) -> bool {
    for (k, answer) in (0u8..).zip(wanted.iter()) {
        if !answers(alloc, catalog, k, answer) {
            return false;
        }
    }
    answers(alloc, catalog, 4, "k above 3")
}

#[test]
fn first_unsafe_losses_by_either_rule(rt: HostRuntime) {
    for (text, wanted) in &ANSWERS {
        assert!(rt;
            answers_all(rt.alloc(), &whole(&rt, text), wanted),
            "{wanted:?}"
        );
        assert!(rt;
            answers_all(rt.alloc(), &by_rows(&rt, text), wanted),
            "{wanted:?}"
        );
    }
}

// No value of `v` is both below 15 and at least 25.
#[test]
fn cuts_on_one_column_are_tied(rt: HostRuntime) {
    let loss = Loss::none().with(1).with(3).with(6);
    assert!(rt; !safe(&whole(&rt, THREE_PROJECTIONS), loss));
    assert!(rt; safe(&by_rows(&rt, THREE_PROJECTIONS), loss));
}

#[test]
fn plan_of_split_columns(rt: HostRuntime) {
    let catalog = whole(&rt, SPLIT_COLUMNS);
    let loss = Loss::none().with(3);
    assert!(rt; catalog.projection_count() == 3);
    assert!(rt; alive(&catalog, loss, 1) && !alive(&catalog, loss, 2));
    let plan = plan(&catalog, loss).expect(&rt, "a plan");
    assert!(rt; plan.anchor == 0 && plan.prev.len() == 3);
    assert!(rt; plan.prev.as_slice() == [None, Some(0), None].as_slice());
    assert!(rt; plan.source.as_slice() == [0, 0, 1].as_slice());
    assert!(rt; plan.reached(0) && plan.reached(1) && !plan.reached(2));
}

#[test]
fn no_plan_where_no_projection_reaches_all(rt: HostRuntime) {
    let catalog = whole(&rt, CITIES);
    assert!(rt; plan(&catalog, Loss::none().with(1)).is_none());
}
