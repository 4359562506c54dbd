use cs_catalog::read_catalog;
use cs_csv::{CsvWords, read_rows, write_rows};
use cs_schema::samples::CITIES;
use std::io::{self, Read, Write};
use std::test::Fail;

/// A reader that fails after some bytes.
#[derive(Drop)]
struct Broken<'a> {
    rest: &'a [u8],
}

impl Read for Broken<'_> {
    fn read(&mut self, buf: &mut [u8]) -> io::Result<usize> {
        match self.rest.read(buf) {
            Ok(0) => Err(io::Error::from(io::ErrorKind::Other)),
            other => other,
        }
    }
}

/// A writer that has room for some bytes.
#[derive(Drop)]
struct Full {
    room: usize,
}

impl Write for Full {
    fn write(&mut self, buf: &[u8]) -> io::Result<usize> {
        if self.room == 0 {
            return Err(io::Error::from(io::ErrorKind::StorageFull));
        }
        let n = buf.len().min(self.room);
        self.room -= n;
        Ok(n)
    }

    fn flush(&mut self) -> io::Result<()> {
        Ok(())
    }
}

#[test]
fn a_reader_that_fails_is_no_end(rt: HostRuntime) -> Result<(), Fail> {
    let alloc = rt.alloc();
    let catalog = read_catalog(alloc, CITIES.as_bytes())?;
    let reader = Broken {
        rest: b"id,city,v\n1,a,2\n",
    };
    let Err(fault) = read_rows(alloc, &catalog, reader) else {
        return Err(Fail::from("read"));
    };
    let words = CsvWords {
        catalog: &catalog,
        fault: &fault,
    };
    let text = format!(in alloc; "{words}")?;
    assert_eq!(rt; text.as_str(), "could not read the text");
    Ok(())
}

#[test]
fn a_writer_that_fails_is_no_success(rt: HostRuntime) -> Result<(), Fail> {
    let alloc = rt.alloc();
    let catalog = read_catalog(alloc, CITIES.as_bytes())?;
    let text = "id,city,v\n1,a,2\n";
    let Ok(rows) = read_rows(alloc, &catalog, text.as_bytes()) else {
        return Err(Fail::from("read"));
    };
    for room in [0, 1, 15] {
        let written = write_rows(alloc, &catalog, &rows, Full { room });
        assert!(rt; written.is_err());
    }
    let written = write_rows(alloc, &catalog, &rows, Full { room: 16 });
    assert!(rt; written.is_ok());
    Ok(())
}
