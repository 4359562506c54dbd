//! Designs of worked catalogs: `CATALOG [SITE,..]` is what is said beside these lost sites as text, `json CATALOG [SITE,..]` as
//! JSON, `svg CATALOG [SITE,..]` as a picture, and `grows CATALOG` whether fatal losses shrink as more sites are lost.
use crate::design_catalogs::catalog_text;
use crate::design_growth::growth;
use anyhow::{Result, anyhow};
use cs_catalog::read_catalog;
use cs_reports::{DesignText, design_object, design_of, picture};
use cs_schema::{Catalog, Loss};
use std::alloc::Global;

/// How a design is to be printed.
#[derive(Clone, Copy)]
enum Form {
    Text,
    Json,
    Svg,
}

/// The sites of a loss, with commas between them.
fn sites(text: &str) -> Result<Loss> {
    let mut loss = Loss::none();
    for word in text.split(",") {
        let site = word.parse::<u8>()?;
        if !(1..=16).contains(&site) {
            return Err(anyhow!("no site"));
        }
        loss = loss.with(site);
    }
    Ok(loss)
}

/// What a line asks for, each line of it ended by a line break.
pub fn answer(alloc: Global, line: &str) -> Result<String> {
    if let Some(name) = line.strip_prefix("grows ") {
        return grows(alloc, name);
    }
    if let Some(case) = line.strip_prefix("json ") {
        return design(alloc, case, Form::Json);
    }
    match line.strip_prefix("svg ") {
        Some(case) => design(alloc, case, Form::Svg),
        None => design(alloc, line, Form::Text),
    }
}

/// The catalog of this name.
fn catalog(alloc: Global, name: &str) -> Result<Catalog> {
    let text = catalog_text(alloc, name)?;
    Ok(read_catalog(alloc, text.as_bytes())?)
}

/// Whether fatal losses shrink as more sites are lost.
fn grows(alloc: Global, name: &str) -> Result<String> {
    let catalog = catalog(alloc, name)?;
    match growth(alloc, &catalog)? {
        Some(lost) => Ok(format!(in alloc; "grown beside {lost}\n")?),
        None => Ok(String::from_str(alloc, "no set grows\n")?),
    }
}

/// What is said beside lost sites, in a form.
fn design(alloc: Global, case: &str, form: Form) -> Result<String> {
    let (name, lost) = match case.split_once(" ") {
        Some((name, lost)) => (name, sites(lost)?),
        None => (case, Loss::none()),
    };
    let catalog = catalog(alloc, name)?;
    let design = design_of(alloc, &catalog, lost)?;
    match form {
        Form::Text => {
            let text = DesignText {
                catalog: &catalog,
                design: &design,
            };
            Ok(format!(in alloc; "{text}")?)
        }
        Form::Json => {
            let value = design_object(alloc, &design)?;
            let text = value.to_string(alloc)?;
            Ok(format!(in alloc; "{text}\n")?)
        }
        Form::Svg => Ok(picture(alloc, &catalog, &design)?),
    }
}
