//! Which rebuilt files are in place already.
ghost use Rattle.std.specs.Prelude.{◌≡◌, ℕ, List, map, IfOk, OnOk, None, Some};
ghost use Rattle.std.specs.FinMap.{entries};
ghost use Rattle.cs_store.specs.FileSet.{contents_of};
ghost use Rattle.cs_restore.specs.Placing.{AddsStep, IsReadAsAnswered, OthersWereRead, WasRead};
ghost use Rattle.cs_restore.specs.declared.step.What.TheVariants as what;

use crate::naming::names_of;
use crate::step::{Step, What, what_of};
use cs_schema::FileName;
use cs_store::{FileSet, Readable};
use std::alloc::{AllocError, Global};

/// The rebuilt files, compared with the files that have their names.
#[derive(Drop)]
pub struct Compared {
    /// The step for each rebuilt file, ascending by name.
    pub steps: Vec<Step>,
    /// The names that do not have the rebuilt bytes yet, ascending.
    pub changes: Vec<FileName>,
}

/// What has to be done for a name that is to have these bytes.
fn standing(read: &Readable, name: FileName, bytes: &[u8]) -> What
    ensures same { result ≡ what.Same → contents_of read.now.files name ≡ Some bytes.now }
    ensures stays { contents_of read.now.files name ≡ Some bytes.now → result ≡ what.Same }
    ensures new { result ≡ what.New → contents_of read.now.files name ≡ None }
{
    if let Some(held) = read.files.get(name) {
        return what_of(held, bytes);
    }
    if read.unreadable.as_slice().contains(&name) {
        return What::Replaces;
    }
    What::New
}

/// The step for a rebuilt file.
fn step_of(read: &Readable, answer: &FileSet, name: FileName) -> Step
    ensures named { result.name ≡ name }
    ensures same { result.what ≡ what.Same → WasRead answer.now read.now.files name }
    ensures stays { IsReadAsAnswered answer.now read.now.files name → result.what ≡ what.Same }
    ensures new { result.what ≡ what.New → contents_of read.now.files name ≡ None }
{
    let bytes = answer.get(name).unwrap_or(&[]);
    Step {
        name,
        what: standing(read, name, bytes),
        bytes: bytes.len() as u64,
    }
}

/// Compares the rebuilt files with what was read under their names.
pub fn compare(alloc: Global, read: &Readable, answer: &FileSet) -> Result<Compared, AllocError>
    ensures { IfOk result (λ compared. OthersWereRead answer.now compared.changes.items read.now.files) }
{
    let names = names_of(alloc, answer)?;
    compare_names(alloc, read, answer, names.as_slice())
}

/// Compares the files of these names, which are those of all rebuilt files.
fn compare_names(
    alloc: Global,
    read: &Readable,
    answer: &FileSet,
    names: &[FileName],
) -> Result<Compared, AllocError>
    requires { names.now ≡ map (λ file. file.0) (entries answer.now) }
    ensures { IfOk result (λ compared. OthersWereRead answer.now compared.changes.items read.now.files) }
{
    let mut compared = Compared {
        steps: Vec::new(alloc),
        changes: Vec::new(alloc),
    };
    for name in names {
        add_step(&mut compared, step_of(read, answer, *name))?;
    }
    Ok(compared)
}

/// Adds a step, and also its name to the changes unless its bytes are in place.
fn add_step(compared: &mut Compared, step: Step) -> Result<(), AllocError>
    ensures { OnOk result (AddsStep step compared.old.changes.items compared.new.changes.items) }
{
    compared.steps.push(step)?;
    if step.what == What::Same {
        return Ok(());
    }
    compared.changes.push(step.name)?;
    Ok(())
}
