//! Lines read as queries.
ghost use Rattle.std.specs.Prelude.{◌≡◌, ◌∷◌, ◌+◌, true, length, unwrap_or, IfOk, IsOk, IsTrue, OnOk};
ghost use Rattle.std.specs.Str.{is_utf8};
ghost use Rattle.query_syntax.specs.Meaning.{meaning, query_of, query_with, query_if_fits, query_after_verb, is_comment, asks_valid, FiltersFit};
ghost use Rattle.query_syntax.specs.Queries.{is_too_deep, is_valid_query, verb_in_range, whole_space};
ghost use Rattle.query_syntax.specs.Filters.{no_filters};
ghost use Rattle.query_syntax.specs.Reading.{GivesRead};
ghost use Rattle.query_syntax.specs.Verbs.{verb_words};
ghost use Rattle.query_syntax.specs.Words.{words};
ghost use Rattle.query_syntax.specs.declared.query.Choice.TheVariants.{All};

use crate::fault::{QueryFault, WordFault};
use crate::filters::read_filters;
use crate::filters_read::FiltersRead;
use crate::verb_words::verb_of;
use crate::words::next_word;
use crate::{Parsed, Verb};
use cube_view::Schema;
use std::alloc::Global;
use texts::NoMemory;

/// How many words the verb has.
fn words_of_verb(verb: Verb) -> u32
    ensures { result ≡ verb_words verb }
{
    match verb {
        Verb::Count | Verb::Stat | Verb::Told | Verb::Quit => 1,
        Verb::Hist(_) | Verb::Map(_) => 2,
        Verb::Cross(_, _) | Verb::Best { .. } => 3,
        Verb::Series { .. } => 4,
        Verb::Window(_) => 5,
    }
}

/// Whether the tiles of a map, or the best ones, in a region of that level are too deep.
pub(crate) fn is_map_too_deep(depth: u8, z: u8, verb: Verb) -> bool
    ensures { result ≡ is_too_deep depth z verb }
{
    match verb {
        Verb::Map(down) | Verb::Best { depth: down, .. } => {
            u32::from(depth) < u32::from(z) + u32::from(down)
        }
        _ => false,
    }
}

/// Tests that the tiles that a verb and filters ask for are not too deep.
fn test_depth(schema: &Schema, verb: Verb, filters: &FiltersRead) -> Result<(), WordFault>
    requires range { IsTrue (verb_in_range schema.now.depth (length schema.now.categories) verb) }
    requires fits { FiltersFit schema.now verb filters.now }
    ensures read { GivesRead (λ _. query_with verb filters.now) result (query_if_fits schema.now (query_with verb filters.now)) }
    ensures valid { OnOk result (IsTrue (is_valid_query schema.now (query_with verb filters.now))) }
{
    if is_map_too_deep(schema.depth, filters.level(), verb) {
        Err(WordFault::at(QueryFault::TooDeep, 2))
    } else {
        Ok(())
    }
}

/// Reads what the line asks for after the words of the verb, where there was no filter before.
#[tactic(auto, unfolding(crate::specs::Meaning::query_after_verb))]
fn read_after(
    schema: &Schema,
    verb: Verb,
    line: &[u8],
    filters: &mut FiltersRead,
) -> Result<(), WordFault>
    requires range { IsTrue (verb_in_range schema.now.depth (length schema.now.categories) verb) }
    requires none { filters.old ≡ no_filters }
    ensures read { GivesRead (λ _. query_with verb filters.new) result (query_after_verb schema.now verb (words line.now)) }
    ensures valid { OnOk result (IsTrue (is_valid_query schema.now (query_with verb filters.new))) }
{
    read_filters(schema, verb, words_of_verb(verb) + 1, line, filters)?;
    test_depth(schema, verb, filters)
}

/// Reads what a first word and the line after it ask for: the verb, and the filters, where there was none before.
#[tactic(auto, unfolding(crate::specs::Meaning::query_of))]
fn read_query(
    schema: &Schema,
    word: &[u8],
    line: &[u8],
    filters: &mut FiltersRead,
) -> Result<Verb, WordFault>
    requires { filters.old ≡ no_filters }
    ensures read { GivesRead (λ verb. query_with verb filters.new) result (query_of schema.now (word.now ∷ words line.now)) }
    ensures valid { IfOk result (λ verb. IsTrue (is_valid_query schema.now (query_with verb filters.new))) }
{
    let (verb, rest) = verb_of(schema, word, line)?;
    read_after(schema, verb, rest, filters)?;
    Ok(verb)
}

/// Whether the line begins with `#`.
fn begins_comment(line: &[u8]) -> bool
    ensures { result ≡ is_comment line.now }
{
    matches!(line, [b'#', ..])
}

/// Whether the bytes are text in UTF-8.
fn is_text_line(line: &[u8]) -> bool
    ensures { result ≡ is_utf8 line.now }
{
    match str::from_utf8(line) {
        Ok(_) => true,
        Err(_) => false,
    }
}

/// Reads the line into `parsed`: nothing, a valid query, or the first fault and the number of its word.
#[tactic(auto, unfolding(crate::specs::Meaning::meaning))]
pub fn parse_into(schema: &Schema, line: &[u8], parsed: &mut Parsed)
    ensures meaning { parsed.new ≡ meaning schema.now line.now }
    ensures valid { IsTrue (asks_valid schema.now parsed.new) }
{
    if !is_text_line(line) {
        *parsed = Parsed::Fault(QueryFault::NotText, 1);
        return;
    }
    *parsed = Parsed::Skip;
    if begins_comment(line) {
        return;
    }
    let Some((word, rest)) = next_word(line) else {
        return;
    };
    let mut filters = FiltersRead::none();
    match read_query(schema, word, rest, &mut filters) {
        Ok(verb) => *parsed = Parsed::Ask(filters.into_query(verb)),
        Err(e) => *parsed = Parsed::Fault(e.fault, e.word),
    }
}

/// The meaning of a line: nothing, a valid query, or the first fault and the number of its word. It
/// takes no memory now; callers are ready for a reader that does.
pub fn parse(_alloc: Global, schema: &Schema, line: &[u8]) -> Result<Parsed, NoMemory>
    ensures meaning { IfOk result (λ parsed. parsed ≡ meaning schema.now line.now) }
    ensures valid { IfOk result (λ parsed. IsTrue (asks_valid schema.now parsed)) }
    ensures answers { IsOk result }
{
    let mut parsed = Parsed::Skip;
    parse_into(schema, line, &mut parsed);
    Ok(parsed)
}
