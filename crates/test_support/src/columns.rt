//! Columns of cells, written down in tests.
use cs_schema::{Cells, Code, Texts, Word};
use std::alloc::{AllocError, Global};

/// The cells of a segment's column.
#[derive(Clone, Copy)]
pub enum Column<'a> {
    Ints(&'a [i64]),
    Texts(&'a [&'a str]),
}

impl Column<'_> {
    /// The number of cells.
    pub fn len(&self) -> usize {
        match self {
            Column::Ints(ints) => ints.len(),
            Column::Texts(texts) => texts.len(),
        }
    }

    /// Whether the cells at two indices are equal.
    fn same(&self, one: usize, other: usize) -> bool {
        match self {
            Column::Ints(ints) => ints.get(one) == ints.get(other),
            Column::Texts(texts) => texts.get(one) == texts.get(other),
        }
    }

    /// The number of the cells' kind in a segment's file.
    fn kind(&self) -> u8 {
        match self {
            Column::Ints(_) => 1,
            Column::Texts(_) => 2,
        }
    }

    /// Appends the cell at an index, if there is one.
    fn push_cell(&self, out: &mut Vec<u8>, at: usize) -> Result<(), AllocError> {
        match self {
            Column::Ints(ints) => push_int(out, ints.get(at)),
            Column::Texts(texts) => push_text(out, texts.get(at)),
        }
    }

    /// The column in the library's form. A text that is too long is left out.
    pub fn cells(&self, alloc: Global) -> Result<Cells, AllocError> {
        match self {
            Column::Ints(ints) => Ok(Cells::Ints(Vec::from_slice(alloc, ints)?)),
            Column::Texts(texts) => Ok(Cells::Texts(texts_of(alloc, texts)?)),
        }
    }
}

/// The columns in the library's form.
pub fn cells_of(alloc: Global, columns: &[Column]) -> Result<Vec<Cells>, AllocError> {
    let mut out = Vec::new(alloc);
    for column in columns {
        out.push(column.cells(alloc)?)?;
    }
    Ok(out)
}

fn texts_of(alloc: Global, texts: &[&str]) -> Result<Texts, AllocError> {
    let mut cells = Texts::new(alloc);
    for text in texts {
        if let Ok(word) = Word::new(text) {
            cells.push(word.as_str())?;
        }
    }
    Ok(cells)
}

fn push_int(out: &mut Vec<u8>, int: Option<&i64>) -> Result<(), AllocError> {
    match int {
        Some(int) => out.extend_from_slice(&int.to_be_bytes()),
        None => Ok(()),
    }
}

fn push_text(out: &mut Vec<u8>, text: Option<&&str>) -> Result<(), AllocError> {
    match text {
        Some(text) => {
            out.push(u8::try_from(text.len()).unwrap_or(u8::MAX))?;
            out.extend_from_slice(text.as_bytes())
        }
        None => Ok(()),
    }
}

/// Appends a number of four bytes. One that is too large becomes the largest, which fits no file.
pub fn push_number(out: &mut Vec<u8>, number: usize) -> Result<(), AllocError> {
    let number = u32::try_from(number).unwrap_or(u32::MAX);
    out.extend_from_slice(&number.to_be_bytes())
}

/// Appends columns, each in its encoding, as a segment's file has them. A column without an encoding is left out.
pub fn push_columns(
    out: &mut Vec<u8>,
    alloc: Global,
    codes: &[Code],
    columns: &[Column],
) -> Result<(), AllocError> {
    for (column, code) in columns.iter().zip(codes.iter()) {
        let text = text_of(alloc, *code, *column)?;
        out.extend_from_slice(&[*code as u8, column.kind()])?;
        push_number(out, text.len())?;
        out.extend_from_slice(text.as_slice())?;
    }
    Ok(())
}

/// The text of a column in each encoding except bitmaps, for which it is empty.
fn text_of(alloc: Global, code: Code, column: Column) -> Result<Vec<u8>, AllocError> {
    let mut out = Vec::new(alloc);
    match (code, column) {
        (Code::Runs, _) => push_runs(&mut out, column)?,
        (Code::Differences, Column::Ints(ints)) => push_differences(&mut out, ints)?,
        (Code::Plain, _) => push_plain(&mut out, column)?,
        _ => {}
    }
    Ok(out)
}

/// The run-length text of a column.
fn push_runs(out: &mut Vec<u8>, column: Column) -> Result<(), AllocError> {
    let rows = column.len();
    let mut start = 0usize;
    for at in 1..=rows {
        if at == rows || !column.same(start, at) {
            column.push_cell(out, start)?;
            push_number(out, start.saturating_add(1))?;
            push_number(out, at.saturating_sub(start))?;
            start = at;
        }
    }
    Ok(())
}

/// Groups of seven bits, least significant first.
fn push_groups(out: &mut Vec<u8>, number: u64) -> Result<(), AllocError> {
    let mut left = number;
    for _ in 0..9 {
        if left < 128 {
            break;
        }
        out.push((left % 128) as u8 + 128)?;
        left /= 128;
    }
    Ok(out.push((left % 128) as u8)?)
}

/// The delta text of a column of ascending ints.
fn push_differences(out: &mut Vec<u8>, ints: &[i64]) -> Result<(), AllocError> {
    let mut last = 0i64;
    for (at, int) in ints.iter().enumerate() {
        if at % 128 == 0 {
            push_number(out, at.saturating_add(1))?;
            out.extend_from_slice(&int.to_be_bytes())?;
        } else {
            push_groups(out, int.abs_diff(last))?;
        }
        last = *int;
    }
    Ok(())
}

fn push_plain(out: &mut Vec<u8>, column: Column) -> Result<(), AllocError> {
    for at in 0..column.len() {
        column.push_cell(out, at)?;
    }
    Ok(())
}
