//! Where the tables of an ambiguous store differ, as JSON.
use cs_diagnosis::{Dispute, TableDisputes};
use cs_reports::object::Object;
use cs_schema::{Cells, Value as Cell};
use pinepolo_answers::Diagnosed;
use pinepolo_text::{is_disputed, number_of, table_at};
use serde_json::Value;
use std::alloc::{AllocError, Global};

/// What each two tables dispute.
pub fn dispute_objects(alloc: Global, diagnosed: &Diagnosed) -> Result<Value, AllocError> {
    let mut list = Vec::new(alloc);
    for of in &diagnosed.disputes {
        list.push(tables_object(alloc, diagnosed, of)?)?;
    }
    Ok(Value::Array(list))
}

/// The numbers of two tables, or of one.
fn numbers(
    alloc: Global,
    first: Option<usize>,
    second: Option<usize>,
) -> Result<Value, AllocError> {
    let mut list = Vec::new(alloc);
    if let Some(place) = first {
        list.push(Value::from(number_of(place)))?;
    }
    if let Some(place) = second {
        list.push(Value::from(number_of(place)))?;
    }
    Ok(Value::Array(list))
}

/// What two tables dispute.
fn tables_object(
    alloc: Global,
    diagnosed: &Diagnosed,
    of: &TableDisputes,
) -> Result<Value, AllocError> {
    let mut rows = Vec::new(alloc);
    for dispute in &of.disputes.rows {
        rows.push(row_object(alloc, diagnosed, of, *dispute)?)?;
    }
    Object::new(alloc)
        .member("tables", numbers(alloc, Some(of.first), Some(of.second)))
        .number("count", of.disputes.count)
        .member("rows", Ok(Value::Array(rows)))
        .finish()
}

/// A cell of a column, or null where there is none.
fn cell_value(alloc: Global, cells: Option<&Cells>, row: usize) -> Result<Value, AllocError> {
    let Some(cells) = cells else {
        return Ok(Value::Null);
    };
    if row >= cells.len() {
        return Ok(Value::Null);
    }
    match cells.cell(row) {
        Cell::Int(int) => Ok(Value::from(int)),
        Cell::Text(text) => Value::try_from_str(alloc, text.as_str()),
    }
}

/// A key at which two tables differ: the tables that have it, and the cells in which their rows differ.
fn row_object(
    alloc: Global,
    diagnosed: &Diagnosed,
    of: &TableDisputes,
    dispute: Dispute,
) -> Result<Value, AllocError> {
    let first = table_at(&diagnosed.diagnosis, of.first);
    let second = table_at(&diagnosed.diagnosis, of.second);
    let key = usize::from(diagnosed.catalog.key);
    let value = match (dispute.first, dispute.second) {
        (Some(row), _) => cell_value(alloc, first.get(key), row),
        (None, Some(row)) => cell_value(alloc, second.get(key), row),
        (None, None) => Ok(Value::Null),
    };
    let has_first = dispute.first.map(|_row| of.first);
    let has_second = dispute.second.map(|_row| of.second);
    Object::new(alloc)
        .member("key", value)
        .member("in", numbers(alloc, has_first, has_second))
        .member("cells", cell_objects(alloc, diagnosed, of, dispute))
        .finish()
}

/// The cells in which the rows of two tables differ: none where one alone has the key.
fn cell_objects(
    alloc: Global,
    diagnosed: &Diagnosed,
    of: &TableDisputes,
    dispute: Dispute,
) -> Result<Value, AllocError> {
    let mut list = Vec::new(alloc);
    let (Some(row), Some(other)) = (dispute.first, dispute.second) else {
        return Ok(Value::Array(list));
    };
    let first = table_at(&diagnosed.diagnosis, of.first);
    let second = table_at(&diagnosed.diagnosis, of.second);
    for (c, column) in diagnosed.catalog.columns.iter().enumerate() {
        let (Some(cells), Some(their)) = (first.get(c), second.get(c)) else {
            continue;
        };
        if is_disputed(cells, row, their, other) {
            let object = Object::new(alloc)
                .text("column", column.name.as_str())
                .member("first", cell_value(alloc, Some(cells), row))
                .member("second", cell_value(alloc, Some(their), other))
                .finish()?;
            list.push(object)?;
        }
    }
    Ok(Value::Array(list))
}
