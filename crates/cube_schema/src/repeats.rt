//! Texts that stand twice in a list.
ghost use Rattle.std.specs.Prelude.{◌≡◌, ◌∷◌, [], ◌++◌, IfOk, OnOk, map, take, codes, option_map};
ghost use Rattle.cube_view.specs.Limits.{has_text, with_weight, column_names};
ghost use Rattle.cube_schema.specs.Repeats.{repeated_in, repeated_value, outputs, file_names, first_repeated};

use crate::draft::Draft;
use crate::text_list::has_text;
use cube_view::Category;
use std::alloc::Global;
use texts::{List, NoMemory, Text};

// The first text of the list that stood earlier in it.
fn repeated_in(texts: &[Text]) -> Option<&str>
    ensures { option_map (λ text. text.now) result ≡ repeated_in texts.now }
{
    for (i, text) in texts.iter().enumerate() {
        if has_text(&texts[..i], text.as_str()) {
            return Some(text.as_str());
        }
    }
    None
}

// The first text that stood earlier among the values of its category.
fn repeated_value(categories: &[Category]) -> Option<&str>
    ensures { option_map (λ text. text.now) result ≡ repeated_value categories.now }
{
    for category in categories {
        if let Some(value) = repeated_in(category.values.as_slice()) {
            return Some(value);
        }
    }
    None
}

// Adds a copy of the text at the end.
fn add_copy(alloc: Global, texts: &mut List<Text>, text: &str) -> Result<(), NoMemory>
    ensures { OnOk result (texts.new ≡ texts.old ++ text.now ∷ []) }
{
    let copy = Text::copy_of(alloc, text)?;
    texts.add(copy)
}

// Adds copies of the texts at the end.
fn add_copies(alloc: Global, texts: &mut List<Text>, more: &[Text]) -> Result<(), NoMemory>
    ensures { OnOk result (texts.new ≡ texts.old ++ more.now) }
{
    for text in more {
        add_copy(alloc, texts, text.as_str())?;
    }
    Ok(())
}

// Adds each name with `.out` after it.
fn add_outputs(alloc: Global, texts: &mut List<Text>, names: &[Text]) -> Result<(), NoMemory>
    ensures { OnOk result (texts.new ≡ texts.old ++ outputs names.now) }
{
    for name in names {
        let output = format!(in alloc; "{}.out", name.as_str())?;
        texts.add(Text::from_string(output))?;
    }
    Ok(())
}

// Adds the name of the weight column at the end, if there is one.
fn add_weight(alloc: Global, texts: &mut List<Text>, weight: &Option<Text>) -> Result<(), NoMemory>
    ensures { OnOk result (texts.new ≡ texts.old ++ with_weight weight.now []) }
{
    match weight {
        Some(name) => add_copy(alloc, texts, name.as_str()),
        None => Ok(()),
    }
}

// Adds the names of the categories at the end.
fn add_names(alloc: Global, texts: &mut List<Text>, categories: &[Category]) -> Result<(), NoMemory>
    ensures { OnOk result (texts.new ≡ texts.old ++ map (λ c. c.name) categories.now) }
{
    for category in categories {
        add_copy(alloc, texts, category.name.as_str())?;
    }
    Ok(())
}

// The columns of a feed: `x`, `y`, `time`, the weight's if there is one, and then the categories.
fn column_names(alloc: Global, draft: &Draft) -> Result<List<Text>, NoMemory>
    ensures { IfOk result (λ names. names ≡ column_names draft.now.categories draft.now.weight) }
{
    let mut names = List::new(alloc);
    add_copy(alloc, &mut names, "x")?;
    add_copy(alloc, &mut names, "y")?;
    add_copy(alloc, &mut names, "time")?;
    add_weight(alloc, &mut names, &draft.weight)?;
    add_names(alloc, &mut names, draft.categories.as_slice())?;
    Ok(names)
}

// The files of a plan.
fn file_names(alloc: Global, draft: &Draft) -> Result<List<Text>, NoMemory>
    ensures { IfOk result (λ names. names ≡ file_names draft.now) }
{
    let mut names = List::new(alloc);
    add_copies(alloc, &mut names, draft.feeds.as_slice())?;
    add_copies(alloc, &mut names, draft.asks.as_slice())?;
    add_copies(alloc, &mut names, draft.finals.as_slice())?;
    add_copy(alloc, &mut names, draft.journal.as_str())?;
    add_outputs(alloc, &mut names, draft.asks.as_slice())?;
    add_outputs(alloc, &mut names, draft.finals.as_slice())?;
    Ok(names)
}

// A copy of the text, if there is one.
fn copy_of(alloc: Global, found: Option<&str>) -> Result<Option<Text>, NoMemory>
    ensures { IfOk result (λ copy. copy ≡ option_map (λ text. text.now) found.entry) }
{
    match found {
        Some(text) => Ok(Some(Text::copy_of(alloc, text)?)),
        None => Ok(None),
    }
}

/// The first text that stood earlier among the columns, the values of a category, or the files.
#[tactic(auto, unfolding(crate::specs::Repeats::first_repeated))]
pub(crate) fn first_repeated(alloc: Global, draft: &Draft) -> Result<Option<Text>, NoMemory>
    ensures { IfOk result (λ found. found ≡ first_repeated draft.now) }
{
    let columns = column_names(alloc, draft)?;
    if let Some(name) = repeated_in(columns.as_slice()) {
        return copy_of(alloc, Some(name));
    }
    if let Some(value) = repeated_value(draft.categories.as_slice()) {
        return copy_of(alloc, Some(value));
    }
    let files = file_names(alloc, draft)?;
    copy_of(alloc, repeated_in(files.as_slice()))
}
