//! Schemas of so many levels and values.
use cube_schema::read_plan;
use cube_view::Schema;
use std::alloc::{AllocError, Global};
use texts::NoMemory;

/// Appends a category of that number and of so many values, which are named by their numbers.
fn push_category(text: &mut String, k: usize, values: u16) -> Result<(), AllocError> {
    let comma = if k > 0 { "," } else { "" };
    write!(text, "{comma}{{\"name\":\"c{k}\",\"values\":[\"0\"")?;
    for value in 1..values {
        write!(text, ",\"{value}\"")?;
    }
    write!(text, "]}}")
}

/// The text of a plan of so many levels, a category for each number that is not 0, which has so many values, and bins
/// of 1.
fn plan_text(alloc: Global, depth: u8, values: &[u16; 4]) -> Result<String, AllocError> {
    let mut text = String::new(alloc);
    write!(text, "{{\"asks\":[],\"batch\":1,\"categories\":[")?;
    for (k, count) in values.iter().enumerate() {
        if *count > 0 {
            push_category(&mut text, k, *count)?;
        }
    }
    write!(
        text,
        "],\"depth\":{depth},\"feeds\":[\"a.csv\"],\"finals\":[],"
    )?;
    write!(
        text,
        "\"journal\":\"j.txt\",\"start\":0,\"version\":1,\"width\":1}}"
    )?;
    Ok(text)
}

/// The schema of that plan.
pub(crate) fn schema_of(alloc: Global, depth: u8, values: &[u16; 4]) -> Result<Schema, NoMemory> {
    let text = plan_text(alloc, depth, values)?;
    match read_plan(alloc, text.as_bytes()) {
        Ok(plan) => plan.schema.copy(alloc),
        Err(_) => Err(NoMemory),
    }
}
