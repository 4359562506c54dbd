//! The header of a text: which field belongs to which column.
ghost use Rattle.std.specs.Prelude.{◌≡◌, ◌≢◌, ◌<◌, ◌≤◌, ℕ, length, slice_index, IfSome, IfNone, IfOk, IfErr, OnOk, true, false};
ghost use Rattle.csv.specs.Records.{fields_of};
ghost use Rattle.cs_csv.specs.Columns.{NamesDiffer, column};
ghost use Rattle.cs_csv.specs.Fields.{field};
ghost use Rattle.cs_csv.specs.Headers.{IsHeader, IsHeaderFault};
ghost use Rattle.cs_csv.specs.Headers.{AreNamesBefore};
ghost use Rattle.cs_csv.specs.Places.{ArePlaces};

use crate::excerpt::Excerpt;
use crate::fault::CsvFault;
use crate::record::field_at;
use cs_schema::Column;
use csv::ByteRecord;
use std::alloc::Global;

/// The name of a column.
fn name_of(columns: &[Column], c: usize) -> &[u8]
    requires { c < length columns.now }
    ensures { result.now ≡ (column columns.now c).name }
{
    let column = &columns[c];
    column.name.as_str().as_bytes()
}

/// The number of the column with this name.
fn find_column(columns: &[Column], name: &[u8]) -> Option<usize>
    ensures found { IfSome result (λ c. (c < length columns.now) × ((column columns.now c).name ≡ name.now)) }
    ensures none { IfNone result ((c : ℕ) → c < length columns.now → (column columns.now c).name ≢ name.now) }
{
    for c in 0..columns.len() {
        if name_of(columns, c) == name {
            return Some(c);
        }
    }
    None
}

/// The index of the first field with this name.
fn find_field(header: &ByteRecord, name: &[u8]) -> Option<usize>
    ensures found { IfSome result (λ i. (i < length (fields_of header.now)) × (field (fields_of header.now) i ≡ name.now)) }
    ensures first { IfSome result (λ i. (j : ℕ) → j < i → field (fields_of header.now) j ≢ name.now) }
    ensures none { IfNone result ((i : ℕ) → i < length (fields_of header.now) → field (fields_of header.now) i ≢ name.now) }
{
    for i in 0..header.len() {
        if field_at(header, i) == name {
            return Some(i);
        }
    }
    None
}

/// Whether the field's name occurs before it.
fn stands_before(header: &ByteRecord, place: usize) -> bool
    requires { place < length (fields_of header.now) }
    ensures yes { result ≡ true → (i : ℕ) × (i < place) × (field (fields_of header.now) i ≡ field (fields_of header.now) place) }
    ensures no { result ≡ false → (i : ℕ) → i < place → field (fields_of header.now) i ≢ field (fields_of header.now) place }
{
    match find_field(header, field_at(header, place)) {
        Some(first) => first != place,
        None => unreachable!(),
    }
}

/// Checks that each field is the name of a column, and the first with that name.
fn check_names(columns: &[Column], header: &ByteRecord) -> Result<(), CsvFault>
    ensures ok { OnOk result (AreNamesBefore columns.now (fields_of header.now) (length (fields_of header.now))) }
    ensures err { IfErr result (λ fault. IsHeaderFault columns.now (fields_of header.now) fault) }
{
    for place in 0..header.len() {
        let name = field_at(header, place);
        let Some(column) = find_column(columns, name) else {
            return Err(CsvFault::Unknown {
                name: Excerpt::new(name),
            });
        };
        if stands_before(header, place) {
            return Err(CsvFault::Twice { column });
        }
    }
    Ok(())
}

/// For each column the index of its field, in a header whose fields are names of columns.
fn find_places(
    alloc: Global,
    columns: &[Column],
    header: &ByteRecord,
) -> Result<Vec<usize>, CsvFault>
    requires { AreNamesBefore columns.now (fields_of header.now) (length (fields_of header.now)) }
    ensures ok { IfOk result (λ places. ArePlaces columns.now (fields_of header.now) places.items) }
    ensures err { IfErr result (λ fault. IsHeaderFault columns.now (fields_of header.now) fault) }
{
    let mut places = Vec::new(alloc);
    for c in 0..columns.len() {
        let Some(place) = find_field(header, name_of(columns, c)) else {
            return Err(CsvFault::Missing { column: c });
        };
        if places.push(place).is_err() {
            return Err(CsvFault::Memory);
        }
    }
    Ok(places)
}

/// For each column the index of its field in the header.
pub(crate) fn read_header(
    alloc: Global,
    columns: &[Column],
    header: &ByteRecord,
) -> Result<Vec<usize>, CsvFault>
    requires { NamesDiffer columns.now }
    ensures header { IfOk result (λ places. IsHeader columns.now (fields_of header.now)) }
    ensures places { IfOk result (λ places. ArePlaces columns.now (fields_of header.now) places.items) }
    ensures err { IfErr result (λ fault. IsHeaderFault columns.now (fields_of header.now) fault) }
{
    match check_names(columns, header) {
        Ok(()) => {}
        Err(fault) => return Err(fault),
    }
    find_places(alloc, columns, header)
}
