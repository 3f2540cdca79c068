//! Texts that are appended to others.
ghost use Rattle.std.specs.Prelude.{◌≡◌, ◌++◌, string_bytes, OnOk};
ghost use Rattle.run_files.specs.Faults.{json_text};

use serde_json::Value;
use std::alloc::{AllocError, Global};

/// Appends the text as a JSON string.
pub(crate) fn push_json(alloc: Global, text: &mut String, string: &str) -> Result<(), AllocError>
    ensures { OnOk result (string_bytes text.new ≡ string_bytes text.old ++ json_text string.now) }
{
    let value = Value::try_from_str(alloc, string)?;
    let json = value.to_string(alloc)?;
    text.push_str(json.as_str())
}
