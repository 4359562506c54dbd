use cs_catalog::read_catalog;
use cs_csv::{CsvWords, read_rows, write_rows};
use cs_schema::samples::CITIES;
use cs_schema::{Catalog, Cells};
use std::test::Fail;

fn cities(rt: &HostRuntime) -> Result<Catalog, Fail> {
    Ok(read_catalog(rt.alloc(), CITIES.as_bytes())?)
}

/// The cells of a column: each int followed by a comma, each text between `<` and `>`.
fn column_text(rt: &HostRuntime, cells: &Cells) -> Result<String, Fail> {
    let alloc = rt.alloc();
    let mut text = format!(in alloc; "")?;
    match cells {
        Cells::Ints(ints) => {
            for int in ints {
                text = format!(in alloc; "{text}{int},")?;
            }
        }
        Cells::Texts(texts) => {
            for row in 0..texts.len() {
                let cell = texts.get(row);
                text = format!(in alloc; "{text}<{cell}>")?;
            }
        }
    }
    Ok(text)
}

/// The columns that a text is read as, or its fault.
fn read(rt: &HostRuntime, text: &[u8]) -> Result<String, Fail> {
    let alloc = rt.alloc();
    let catalog = cities(rt)?;
    match read_rows(alloc, &catalog, text) {
        Ok(columns) => {
            let mut read = format!(in alloc; "")?;
            for cells in &columns {
                let column = column_text(rt, cells)?;
                read = format!(in alloc; "{read}{column}|")?;
            }
            Ok(read)
        }
        Err(fault) => {
            let words = CsvWords {
                catalog: &catalog,
                fault: &fault,
            };
            Ok(format!(in alloc; "{words}")?)
        }
    }
}

/// Texts, and the columns that are read from them.
const READ: [(&str, &str); 19] = [
    ("id,city,v\n", "|||"),
    ("id,city,v", "|||"),
    ("id,city,v\n1,a,2\n3,b,4\n", "1,3,|<a><b>|2,4,|"),
    ("id,city,v\n1,a,2", "1,|<a>|2,|"),
    ("id,city,v\n1,a,2\r", "1,|<a>|2,|"),
    ("id,city,v\n1,a,\"2\"", "1,|<a>|2,|"),
    ("v,id,city\n2,1,a\n", "1,|<a>|2,|"),
    // a quote within a cell that begins with none
    ("id,v,city\n1,2,a\"b", "1,|<a\"b>|2,|"),
    ("id,v,city\n1,2,\"a\nx\"", "1,|<a\nx>|2,|"),
    ("id,city,v\r\n1,a,2\r\n", "1,|<a>|2,|"),
    ("\u{feff}id,city,v\n1,a,2\n", "1,|<a>|2,|"),
    ("\"id\",\"city\",\"v\"\n\"1\",\"a\",\"2\"\n", "1,|<a>|2,|"),
    ("id,city,v\n1,\"a,b\",2\n", "1,|<a,b>|2,|"),
    ("id,city,v\n1,\"a \"\"b\"\"\",2\n", "1,|<a \"b\">|2,|"),
    ("id,city,v\n1,\"a\nb\",2\n", "1,|<a\nb>|2,|"),
    ("id,city,v\n1,,2\n", "1,|<>|2,|"),
    ("id,city,v\n\n1,a,2\n\n", "1,|<a>|2,|"),
    ("id,city,v\n+1,a,007\n", "1,|<a>|7,|"),
    (
        "id,city,v\n-9223372036854775808,a,9223372036854775807\n",
        "-9223372036854775808,|<a>|9223372036854775807,|",
    ),
];

#[test]
fn reads_rows_with_ample_memory(rt: HostRuntime) -> Result<(), Fail> {
    for (text, wanted) in READ {
        assert_eq!(rt; read(&rt, text.as_bytes())?.as_str(), wanted);
    }
    Ok(())
}

/// Texts, and their first faults in words.
const REFUSED: [(&str, &str); 24] = [
    ("", "record 0: id is missing"),
    ("id,city\n", "record 0: v is missing"),
    ("id,city,zz\n", "record 0: zz is not a column"),
    ("id,city,v,\"a\nb\"\n", "record 0: a\\nb is not a column"),
    ("id,v,city,v\n", "record 0: v specified more than once"),
    ("v,v,zz\n", "record 0: v specified more than once"),
    (
        "id,city,v\n1,a\n",
        "record 1: 2 cells, but the catalog has 3 columns",
    ),
    (
        "id,city,v\n1,a,2\n1,a,2,3\n",
        "record 2: 4 cells, but the catalog has 3 columns",
    ),
    (
        "id,city,v\n1,\"a,2\n",
        "record 1: a quoted cell is not closed: close it, or get the rest of the text",
    ),
    (
        "id,city,v\n1,a,2\n2,b,\"3",
        "record 2: a quoted cell is not closed: close it, or get the rest of the text",
    ),
    (
        "id,city,v\n1,a,2\n2,b,\"",
        "record 2: a quoted cell is not closed: close it, or get the rest of the text",
    ),
    (
        "id,\"city,v\n1,a,2\n",
        "record 0: a quoted cell is not closed: close it, or get the rest of the text",
    ),
    (
        "\"",
        "record 0: a quoted cell is not closed: close it, or get the rest of the text",
    ),
    // no mark of the end is taken for what a text itself has there
    (
        "id,city,v\n1,a,2\nx",
        "record 2: 1 cells, but the catalog has 3 columns",
    ),
    (
        "id,city,v\n1,a,2\nx\n",
        "record 2: 1 cells, but the catalog has 3 columns",
    ),
    // the record before it has the first fault
    (
        "id,city,v\n1,a\n2,\"b",
        "record 1: 2 cells, but the catalog has 3 columns",
    ),
    (
        "id,city,v\n1,a,2\n1,a,x7\n",
        "record 2: v is not an integer: \"x7\"",
    ),
    (
        "id,city,v\n 1,a,2\n",
        "record 1: id is not an integer: \" 1\"",
    ),
    ("id,city,v\n,a,2\n", "record 1: id is not an integer: \"\""),
    (
        "id,city,v\n\"\"\"\n\",a,2\n",
        "record 1: id is not an integer: \"\\\"\\n\"",
    ),
    (
        "id,city,v\n9223372036854775808,a,2\n",
        "record 1: id is not an integer: \"9223372036854775808\"",
    ),
    (
        "id,city,v\n0123456789012345678901234567890123456789a,a,2\n",
        "record 1: id is not an integer: \"0123456789012345678901234567890123456789\"",
    ),
    // of two faulty cells, that of the table's first column, wherever it is in the record
    (
        "v,city,id\nx,a,y\n",
        "record 1: id is not an integer: \"y\"",
    ),
    (
        "id,city,v\nx,a,1\n1,a\n",
        "record 1: id is not an integer: \"x\"",
    ),
];

#[test]
fn refuses_by_the_first_fault(rt: HostRuntime) -> Result<(), Fail> {
    for (text, wanted) in REFUSED {
        assert_eq!(rt; read(&rt, text.as_bytes())?.as_str(), wanted);
    }
    assert_eq!(rt;
        read(&rt, b"id,city,v\n1,\xff,2\n")?.as_str(),
        "record 1: city is not valid UTF-8"
    );
    assert_eq!(rt;
        read(&rt, b"id,city,v\n\xff,a,2\n")?.as_str(),
        "record 1: id is not an integer: \"\\xff\""
    );
    Ok(())
}

/// What is read from a text of one row with this city.
fn read_city(rt: &HostRuntime, city: &str) -> Result<String, Fail> {
    let text = format!(in rt.alloc(); "id,city,v\n1,{city},2\n")?;
    read(rt, text.as_bytes())
}

#[test]
fn texts_end_at_255_bytes(rt: HostRuntime) -> Result<(), Fail> {
    let longest = "a".repeat(rt.alloc(), 255)?;
    let wanted = format!(in rt.alloc(); "1,|<{longest}>|2,|")?;
    let read = read_city(&rt, longest.as_str())?;
    assert_eq!(rt; read.as_str(), wanted.as_str());
    Ok(())
}

#[test]
fn texts_of_256_bytes_are_too_long(rt: HostRuntime) -> Result<(), Fail> {
    let longer = "a".repeat(rt.alloc(), 256)?;
    let read = read_city(&rt, longer.as_str())?;
    assert_eq!(rt; read.as_str(), "record 1: city is too long: 256 bytes");
    Ok(())
}

/// Texts, and what is written of their rows.
const WRITTEN: [(&str, &str); 4] = [
    ("id,city,v\n", "id,city,v\n"),
    (
        "v,city,id\r\n2,a,1\r\n-4,\"b\nc\",3\r\n",
        "id,city,v\n1,a,2\n3,\"b\nc\",-4\n",
    ),
    (
        "id,city,v\n1,\"a \"\"b\"\", c\",2\n",
        "id,city,v\n1,\"a \"\"b\"\", c\",2\n",
    ),
    ("id,city,v\n1,,2\n", "id,city,v\n1,,2\n"),
];

#[test]
fn writes_rows_with_ample_memory(rt: HostRuntime) -> Result<(), Fail> {
    let alloc = rt.alloc();
    let catalog = cities(&rt)?;
    for (text, wanted) in WRITTEN {
        let Ok(columns) = read_rows(alloc, &catalog, text.as_bytes()) else {
            return Err(Fail::from("read"));
        };
        let Ok(written) = write_rows(alloc, &catalog, &columns, Vec::new(alloc)) else {
            return Err(Fail::from("write"));
        };
        assert_eq!(rt; written.as_slice(), wanted.as_bytes());
    }
    Ok(())
}
