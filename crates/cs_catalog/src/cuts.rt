//! The cuts of a projection as cells.
ghost use Rattle.std.specs.Prelude.{◌≡◌, is_none, Some, IfOk, IfErr, map, option_map};
ghost use Rattle.toml.specs.View.{view};
ghost use Rattle.cs_schema.specs.declared.cells.Value.{Value as Cell};
ghost use Rattle.cs_schema.specs.Document.{read_all};
ghost use Rattle.cs_catalog.specs.Tree.{cut_of};
ghost use Rattle.cs_schema.specs.Cuts.{cuts_of, cut_text, cut_integer, ascends};
ghost use Rattle.cs_schema.specs.Values.{values};
ghost use Rattle.cs_schema.specs.Rules.{has_cuts};
ghost use Rattle.cs_catalog.specs.Refusals.{rule_of, IsRefusedUnlessMemory};

use crate::document::{ColumnEntry, ProjectionEntry};
use crate::fault::Refusal;
use crate::lookups::{is_int_column, leading};
use crate::problem::{Part, Problem};
use cs_schema::limits::CUTS;
use cs_schema::{Cells, Texts, Word};
use std::alloc::{AllocError, Global};
use toml::Value;

/// The refusal of an item that is not a cut.
fn no_cut(text: &'static str, at: usize) -> Refusal<'static>
    ensures { rule_of result ≡ Some 11 }
{
    Refusal::Rule(11, Problem::of(text, Part::Count(at)))
}

fn integer_cut(value: &Value) -> Option<i64>
    ensures { option_map Cell.Int result ≡ cut_integer (cut_of (view value.now)) }
{
    value.as_integer()
}

fn integer_cuts(alloc: Global, values: &[Value]) -> Result<Vec<i64>, Refusal<'static>>
    ensures read { IfOk result (λ v. read_all cut_integer (map cut_of (map view values.now)) ≡ Some (map Cell.Int v.items)) }
    ensures refused { IfErr result (IsRefusedUnlessMemory 11 (read_all cut_integer (map cut_of (map view values.now)))) }
{
    let mut found = Vec::new(alloc);
    for (at, value) in values.iter().enumerate() {
        match integer_cut(value) {
            Some(number) => found.push(number)?,
            None => return Err(no_cut("cuts[{}] is not an integer", at)),
        }
    }
    Ok(found)
}

fn text_cut(value: &Value) -> Option<Word>
    ensures { option_map Cell.Text result ≡ cut_text (cut_of (view value.now)) }
{
    match value.as_str() {
        Some(text) => match Word::new(text) {
            Ok(word) => Some(word),
            Err(_) => None,
        },
        None => None,
    }
}

fn text_cuts(alloc: Global, values: &[Value]) -> Result<Texts, Refusal<'static>>
    ensures read { IfOk result (λ v. read_all cut_text (map cut_of (map view values.now)) ≡ Some (map Cell.Text v)) }
    ensures refused { IfErr result (IsRefusedUnlessMemory 11 (read_all cut_text (map cut_of (map view values.now)))) }
{
    let mut found = Texts::new(alloc);
    let text = "cuts[{}] is not a string of at most 255 bytes";
    for (at, value) in values.iter().enumerate() {
        match text_cut(value) {
            Some(word) => found.push(word.as_str())?,
            None => return Err(no_cut(text, at)),
        }
    }
    Ok(found)
}

/// The cuts as cells of the first sort column's kind.
pub fn cut_cells(alloc: Global, is_int: bool, items: &[Value]) -> Result<Cells, Refusal<'static>>
    ensures read { IfOk result (λ cells. cuts_of is_int (map cut_of (map view items.now)) ≡ Some (values cells)) }
    ensures refused { IfErr result (IsRefusedUnlessMemory 11 (cuts_of is_int (map cut_of (map view items.now)))) }
{
    if is_int {
        Ok(Cells::Ints(integer_cuts(alloc, items)?))
    } else {
        Ok(Cells::Texts(text_cuts(alloc, items)?))
    }
}

fn integers_ascend(numbers: &[i64]) -> bool
    ensures { result ≡ ascends (map Cell.Int numbers.now) }
{
    let Some((first, rest)) = numbers.split_first() else {
        return true;
    };
    let mut last = first;
    for number in rest {
        if last.cmp(number).is_ge() {
            return false;
        }
        last = number;
    }
    true
}

fn texts_ascend(texts: &Texts) -> bool
    ensures { result ≡ ascends (map Cell.Text texts.now) }
{
    for next in 1..texts.len() {
        if texts.compare(next - 1, texts, next).is_ge() {
            return false;
        }
    }
    true
}

fn ascends(cells: &Cells) -> bool
    ensures { result ≡ ascends (values cells.now) }
{
    match cells {
        Cells::Ints(numbers) => integers_ascend(numbers),
        Cells::Texts(texts) => texts_ascend(texts),
    }
}

/// What breaks the rule on cuts in a projection, if anything.
pub fn cuts_problem(
    alloc: Global,
    columns: &[ColumnEntry],
    projection: &ProjectionEntry,
) -> Result<Option<Problem<'static>>, AllocError>
    ensures { IfOk result (λ problem. is_none problem ≡ has_cuts columns.now projection.now) }
{
    let (cuts, found) = (projection.cuts, projection.cuts.len());
    if found > CUTS {
        let text = "cuts has {} items, but must have at most 15";
        return Ok(Some(Problem::of(text, Part::Count(found))));
    }
    match cut_cells(alloc, is_int_column(columns, leading(projection)), cuts) {
        Ok(cells) => {
            if ascends(&cells) {
                Ok(None)
            } else {
                Ok(Some(Problem::said("cuts are not in ascending order")))
            }
        }
        Err(Refusal::Rule(_, problem)) => Ok(Some(problem)),
        Err(Refusal::Memory) => Err(AllocError),
    }
}
