//! What the program of `catalog_cases` does not print of the crate of catalogs.
use cs_catalog::{CatalogFault, read_catalog};
use cs_schema::samples::TWO_ORDERS;
use cs_schema::{Catalog, FileName, Loss, Value};
use std::alloc::{AllocError, Global};
use std::fmt;
use std::fmt::Write;

/// A text with a repeated part, numbered each time.
struct Repeated {
    before: &'static str,
    unit: &'static str,
    end: &'static str,
    count: u32,
    after: &'static str,
}

const COLUMNS: Repeated = Repeated {
    before: "version = 1\ntable = \"t\"\nkey = \"id\"\nsites = 2\nprojection = []",
    unit: "\n[[column]]\nname=\"c",
    end: "\"\nkind=\"int\"",
    count: 2700,
    after: "\n",
};

const NAMES: Repeated = Repeated {
    before: "version = 1\ntable = \"t\"\nkey = \"c0\"\nsites = 2\ncolumn = [{name=\"c0\",kind=\"int\"}]\n[[projection]]\nname = \"a\"\ncodes = []\nsort = []\ncuts = []\nsites = []\njoins = []\ncolumns = [",
    unit: "\"c",
    end: "\",",
    count: 10800,
    after: "]\n",
};

fn written(alloc: Global, repeated: &Repeated) -> Result<String, fmt::Error> {
    let mut text = String::new(alloc);
    text.write_str(repeated.before)?;
    for i in 0..repeated.count {
        write!(text, "{}{i}{}", repeated.unit, repeated.end)?;
    }
    text.write_str(repeated.after)?;
    Ok(text)
}

#[test]
fn long_catalogs_are_refused_by_the_least_rule(rt: HostRuntime) {
    for (repeated, rule) in [(&COLUMNS, 4), (&NAMES, 7)] {
        let text = written(rt.alloc(), repeated).expect(&rt, "a long catalog");
        assert!(rt; text.len() > 80_000, "rule {rule}");
        let answer = read_catalog(rt.alloc(), text.as_bytes()).err();
        assert!(rt; answer == Some(CatalogFault::Rule(rule)), "rule {rule}");
    }
}

#[test]
fn bytes_that_are_no_text(rt: HostRuntime) {
    let answer = read_catalog(rt.alloc(), b"\xff");
    assert!(rt; matches!(answer, Err(CatalogFault::Toml)));
}

#[test]
fn names_files(rt: HostRuntime) {
    let highest = FileName::Jix {
        p: 65535,
        s: 65535,
        q: 65535,
    };
    for (name, path) in [
        (FileName::Seg { p: 0, s: 0 }, "p0.s0.seg"),
        (FileName::Jix { p: 0, s: 0, q: 1 }, "p0.s0.q1.jix"),
        (highest, "p65535.s65535.q65535.jix"),
    ] {
        assert_eq!(rt; name.path().as_str(), path);
    }
    for (lower, higher) in [
        (
            FileName::Jix { p: 0, s: 0, q: 7 },
            FileName::Seg { p: 0, s: 1 },
        ),
        (FileName::Seg { p: 1, s: 0 }, FileName::Del { p: 1, s: 0 }),
    ] {
        assert!(rt; lower < higher, "{higher}");
    }
}

#[test]
fn loses_sites(rt: HostRuntime) {
    let none = Loss::none();
    let loss = none.with(16).with(1).with(16);
    for (shown, wanted) in [(none, "none"), (loss, "1,16")] {
        let text = format!(in rt.alloc(); "{shown}").expect(&rt, "a text");
        assert!(rt; text.as_str() == wanted, "{wanted}");
    }
    for (site, has) in [(1, true), (2, false), (16, true)] {
        assert!(rt; loss.has(site) == has, "site {site}");
    }
    assert!(rt; loss.count() == 2 && loss == none.with(1).with(16));
}

/// The catalog of two orders, the first of which is cut at 10.
fn cut_orders(alloc: Global) -> Result<Catalog, CatalogFault> {
    let Some((first, rest)) = TWO_ORDERS.split_once("cuts = []\nsites = [1]") else {
        return Err(CatalogFault::Toml);
    };
    let Ok(text) = format!(in alloc; "{first}cuts = [10]\nsites = [1, 2]{rest}") else {
        return Err(CatalogFault::Memory);
    };
    read_catalog(alloc, text.as_bytes())
}

/// The paths of the files that survive a loss, each followed by a space.
fn surviving(alloc: Global, catalog: &Catalog, loss: Loss) -> Result<String, AllocError> {
    let mut paths = String::new(alloc);
    for name in &catalog.surviving(alloc, loss)? {
        paths.push_str(name.path().as_str())?;
        paths.push_str(" ")?;
    }
    Ok(paths)
}

#[test]
fn divides_by_cuts_with_ample_memory(rt: HostRuntime) {
    let catalog = cut_orders(rt.alloc()).expect(&rt, "a catalog");
    assert_eq!(rt; catalog.projection_count(), 2);
    for (value, segment) in [(9, 0), (10, 1), (11, 1)] {
        assert!(rt;
            catalog.segment_of(0, &Value::Int(value)) == segment,
            "{value}"
        );
    }
    let paths = surviving(rt.alloc(), &catalog, Loss::none().with(2)).expect(&rt, "paths");
    assert_eq!(rt; paths.as_str(), "p0.s0.seg p0.s0.del ");
}
