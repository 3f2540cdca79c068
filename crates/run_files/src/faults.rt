//! Faults, printed.
ghost use Rattle.std.specs.Prelude.{◌≡◌, ◌++◌, string_bytes, OnOk};
ghost use Rattle.std.specs.List.{slice_get};
ghost use Rattle.run_files.specs.Faults.{cut_fault_text, head_fault_text, plan_fault_text, row_fault_text, session_fault_text, with_brackets, json_text};
ghost use Rattle.run_files.specs.Names.{column_name, name_of};

use crate::json_text::push_json;
use cube_schema::PlanFault;
use cube_view::Schema;
use feed_reader::{Column, HeadFault, RowFault};
use outer_io::CutFault;
use session_core::SessionFault;
use std::alloc::{AllocError, Global};

/// The name of the category at a place.
fn category_name(schema: &Schema, place: u8) -> &str
    ensures { result.now ≡ name_of (slice_get schema.now.categories place) }
{
    match schema.categories.as_slice().get(usize::from(place)) {
        Some(category) => category.name.as_str(),
        None => "",
    }
}

/// The name of a column.
fn column_name(schema: &Schema, column: Column) -> &str
    ensures { result.now ≡ column_name schema.now column }
{
    match column {
        Column::X => "x",
        Column::Y => "y",
        Column::Time => "time",
        Column::Weight => match &schema.weight {
            Some(name) => name.as_str(),
            None => "",
        },
        Column::Category(place) => category_name(schema, place),
    }
}

/// Appends a name, and a text in brackets.
fn push_with_brackets(text: &mut String, name: &str, inner: &str) -> Result<(), AllocError>
    ensures { OnOk result (string_bytes text.new ≡ string_bytes text.old ++ with_brackets name.now inner.now) }
{
    text.push_str(name)?;
    text.push('(')?;
    text.push_str(inner)?;
    text.push(')')
}

/// Appends the fault of a row.
pub(crate) fn push_row_fault(
    text: &mut String,
    schema: &Schema,
    fault: RowFault,
) -> Result<(), AllocError>
    ensures { OnOk result (string_bytes text.new ≡ string_bytes text.old ++ row_fault_text schema.now fault) }
{
    match fault {
        RowFault::BadRow => text.push_str("BadRow"),
        RowFault::ShortRow => text.push_str("ShortRow"),
        RowFault::BadNumber(column) => {
            push_with_brackets(text, "BadNumber", column_name(schema, column))
        }
        RowFault::BadTile(column) => {
            push_with_brackets(text, "BadTile", column_name(schema, column))
        }
        RowFault::UnknownValue(place) => {
            push_with_brackets(text, "UnknownValue", category_name(schema, place))
        }
        RowFault::EarlyTime => text.push_str("EarlyTime"),
        RowFault::LateTime => text.push_str("LateTime"),
        RowFault::LongLine => text.push_str("LongLine"),
        RowFault::BadWeight => text.push_str("BadWeight"),
    }
}

/// Appends the fault of a header.
pub(crate) fn push_head_fault(
    text: &mut String,
    schema: &Schema,
    fault: HeadFault,
) -> Result<(), AllocError>
    ensures { OnOk result (string_bytes text.new ≡ string_bytes text.old ++ head_fault_text schema.now fault) }
{
    match fault {
        HeadFault::BadRow => text.push_str("BadRow"),
        HeadFault::NoColumn(column) => {
            push_with_brackets(text, "NoColumn", column_name(schema, column))
        }
        HeadFault::TwoColumns(column) => {
            push_with_brackets(text, "TwoColumns", column_name(schema, column))
        }
        HeadFault::NoMemory => text.push_str("NoMemory"),
    }
}

/// Appends the name of a plan's fault, and a text in brackets as a JSON string.
fn push_with_json(
    alloc: Global,
    text: &mut String,
    name: &str,
    inner: &str,
) -> Result<(), AllocError>
    ensures { OnOk result (string_bytes text.new ≡ string_bytes text.old ++ with_brackets name.now (json_text inner.now)) }
{
    text.push_str(name)?;
    text.push('(')?;
    push_json(alloc, text, inner)?;
    text.push(')')
}

/// Appends the fault of a plan.
pub(crate) fn push_plan_fault(
    alloc: Global,
    text: &mut String,
    fault: &PlanFault,
) -> Result<(), AllocError>
    ensures { OnOk result (string_bytes text.new ≡ string_bytes text.old ++ plan_fault_text fault.now) }
{
    match fault {
        PlanFault::NotJson => text.push_str("NotJson"),
        PlanFault::NotObject => text.push_str("NotObject"),
        PlanFault::Missing(member) => push_with_brackets(text, "Missing", member.name()),
        PlanFault::Unknown(name) => push_with_json(alloc, text, "Unknown", name.as_str()),
        PlanFault::BadKind(member) => push_with_brackets(text, "BadKind", member.name()),
        PlanFault::OutOfRange(member) => push_with_brackets(text, "OutOfRange", member.name()),
        PlanFault::Repeated(name) => push_with_json(alloc, text, "Repeated", name.as_str()),
        PlanFault::NoMemory => text.push_str("NoMemory"),
        PlanFault::TooLong => text.push_str("TooLong"),
    }
}

/// The name of the fault that ended a feed.
pub(crate) fn cut_fault_name(fault: CutFault) -> &'static str
    ensures { result.now ≡ cut_fault_text fault }
{
    match fault {
        CutFault::Read => "Read",
        CutFault::TooMuch => "TooMuch",
        CutFault::NoMemory => "NoMemory",
    }
}

/// The name of the fault that ended a session.
pub(crate) fn session_fault_name(fault: SessionFault) -> &'static str
    ensures { result.now ≡ session_fault_text fault }
{
    match fault {
        SessionFault::Read => "Read",
        SessionFault::Write => "Write",
        SessionFault::TooMuch => "TooMuch",
        SessionFault::NoMemory => "NoMemory",
    }
}
