//! Faults of a store as members of JSON objects.
use crate::object::Object;
use cs_schema::FileName;
use cs_store::Fault;

/// What a fault is called in JSON.
fn fault_kind(fault: &Fault) -> &'static str {
    match fault {
        Fault::Memory => "out of memory",
        Fault::Site => "no such site",
        Fault::BadK => "k too high",
        Fault::Unsafe(_) => "unsafe loss",
        Fault::Missing(_) => "missing",
        Fault::Damaged(_) => "damaged",
        Fault::Astray { .. } => "astray",
        Fault::Twice => "key twice",
        Fault::Full { .. } => "full",
        Fault::Misplaced { .. } => "misplaced",
        Fault::Misled { .. } => "misled",
        Fault::Read(_) => "unreadable",
        Fault::Write(_) => "not written",
    }
}

/// The object with the name of a file.
fn with_file(object: Object, name: FileName) -> Object {
    let path = name.path();
    object.text("file", path.as_str())
}

/// The object with the numbers of a projection and of a segment of it.
fn with_segment(object: Object, p: u16, s: u16) -> Object {
    object
        .number("projection", u64::from(p))
        .number("segment", u64::from(s))
}

/// The object with the kind of a fault, what it is about, and the site of that if it has one.
pub fn with_fault(object: Object, site: Option<u8>, fault: &Fault) -> Object {
    let object = object.text("kind", fault_kind(fault));
    let object = match site {
        Some(site) => object.number("site", u64::from(site)),
        None => object,
    };
    match fault {
        Fault::Unsafe(loss) => object.sites("lost", *loss),
        Fault::Missing(name) | Fault::Damaged(name) | Fault::Read(name) => with_file(object, *name),
        Fault::Write(Some(name)) => with_file(object, *name),
        Fault::Astray { p, s, row } => {
            with_segment(object, *p, *s).number("row", u64::from(*row))
        }
        Fault::Full { p, s } | Fault::Misplaced { p, s } => with_segment(object, *p, *s),
        Fault::Misled { p, s, q } => with_segment(object, *p, *s).number("join", u64::from(*q)),
        _ => object,
    }
}
