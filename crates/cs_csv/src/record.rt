//! Cells from the fields of a record.
ghost use Rattle.std.specs.Prelude.{◌≡◌, ◌<◌, ℕ, [], ◌∷◌, ◌++◌, length, slice_index, OnOk, IfErr};
ghost use Rattle.csv.specs.Records.{fields_of};
ghost use Rattle.cs_schema.specs.Values.{kind_of, values};
ghost use Rattle.cs_csv.specs.Fields.{IsCellOf, cell_of, field};
ghost use Rattle.cs_csv.specs.Faults.{AddsField, IsFirstRefused, Refuses, kinds_of};

use crate::excerpt::Excerpt;
use crate::fault::{FieldFault, RecordFault};
use cs_schema::Cells;
use csv::ByteRecord;
use std::str;

/// The field of a record at an index.
pub(crate) fn field_at(row: &ByteRecord, place: usize) -> &[u8]
    requires { place < length (fields_of row.now) }
    ensures { result.now ≡ field (fields_of row.now) place }
{
    match row.get(place) {
        Some(field) => field,
        None => unreachable!(),
    }
}

/// Appends the cell that a field is.
fn push_field(text: &[u8], cells: &mut Cells) -> Result<(), FieldFault>
    ensures kind { kind_of cells.new ≡ kind_of cells.old }
    ensures fits { OnOk result (IsCellOf (kind_of cells.old) text.now) }
    ensures ok { OnOk result (values cells.new ≡ values cells.old ++ cell_of (kind_of cells.old) text.now ∷ []) }
    ensures err { IfErr result (λ why. Refuses (kind_of cells.old) text.now why) }
{
    match cells {
        Cells::Ints(ints) => {
            let cell = text;
            let Ok(text) = str::from_utf8(text) else {
                return Err(FieldFault::NotInt {
                    cell: Excerpt::new(cell),
                });
            };
            let Ok(int) = text.parse::<i64>() else {
                return Err(FieldFault::NotInt {
                    cell: Excerpt::new(cell),
                });
            };
            if ints.push(int).is_err() {
                return Err(FieldFault::Memory);
            }
        }
        Cells::Texts(texts) => {
            let Ok(text) = str::from_utf8(text) else {
                return Err(FieldFault::NotText);
            };
            if text.len() > 255 {
                return Err(FieldFault::TooLong { bytes: text.len() });
            }
            if texts.push(text).is_err() {
                return Err(FieldFault::Memory);
            }
        }
    }
    Ok(())
}

/// Appends the cells of a record, given the index of each column's field.
pub(crate) fn push_record(
    row: &ByteRecord,
    places: &[usize],
    cells: &mut Vec<Cells>,
) -> Result<(), RecordFault>
    requires count { length cells.old.items ≡ length places.now }
    requires within { (c : ℕ) → c < length places.now → slice_index places.now c < length (fields_of row.now) }
    ensures kinds { kinds_of cells.new.items ≡ kinds_of cells.old.items }
    ensures ok { OnOk result ((c : ℕ) → c < length places.now
        → AddsField cells.old.items cells.new.items (field (fields_of row.now) (slice_index places.now c)) c) }
    ensures err { IfErr result (λ fault. IsFirstRefused cells.old.items places.now (fields_of row.now) fault.column fault.why) }
{
    for column in 0..places.len() {
        let text = field_at(row, places[column]);
        match push_field(text, &mut cells[column]) {
            Ok(()) => {}
            Err(why) => return Err(RecordFault { column, why }),
        }
    }
    Ok(())
}
