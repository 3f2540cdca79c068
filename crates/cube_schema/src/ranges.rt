//! The ranges of a plan's members.
ghost use Rattle.std.specs.Prelude.{◌≡◌};
ghost use Rattle.std.specs.List.{list_all};
ghost use Rattle.cube_view.specs.Limits.{is_between, is_name_byte, is_category_name, is_value_byte, is_value, category_in_range, categories_in_range, weight_in_range};
ghost use Rattle.cube_schema.specs.Ranges.{is_file_byte, is_file_name, are_files, member_in_range, first_out_of_range};

use crate::Member;
use crate::draft::Draft;
use crate::member::MEMBERS;
use crate::versions::version_of;
use cube_view::Category;
use texts::Text;

fn is_file_byte(byte: u8) -> bool
    ensures { result ≡ is_file_byte byte }
{
    byte.is_ascii_alphanumeric() || byte == b'.' || byte == b'_' || byte == b'-'
}

fn all_file_bytes(bytes: &[u8]) -> bool
    ensures { result ≡ list_all is_file_byte bytes.now }
{
    bytes.iter().all(|byte| is_file_byte(*byte))
}

fn is_file_name(name: &str) -> bool
    ensures { result ≡ is_file_name name.now }
{
    let bytes = name.as_bytes();
    match bytes {
        [] => false,
        [first, ..] => bytes.len() <= 64 && all_file_bytes(bytes) && *first != b'.',
    }
}

fn all_file_names(names: &[Text]) -> bool
    ensures { result ≡ list_all is_file_name names.now }
{
    names.iter().all(|name| is_file_name(name.as_str()))
}

fn are_files(least: usize, names: &[Text]) -> bool
    ensures { result ≡ are_files least names.now }
{
    least <= names.len() && names.len() <= 8 && all_file_names(names)
}

fn is_name_byte(byte: u8) -> bool
    ensures { result ≡ is_name_byte byte }
{
    byte.is_ascii_lowercase() || byte.is_ascii_digit() || byte == b'_'
}

fn all_name_bytes(bytes: &[u8]) -> bool
    ensures { result ≡ list_all is_name_byte bytes.now }
{
    bytes.iter().all(|byte| is_name_byte(*byte))
}

fn is_category_name(name: &str) -> bool
    ensures { result ≡ is_category_name name.now }
{
    let bytes = name.as_bytes();
    1 <= bytes.len() && bytes.len() <= 32 && all_name_bytes(bytes)
}

fn is_value_byte(byte: u8) -> bool
    ensures { result ≡ is_value_byte byte }
{
    32 <= byte && byte != b'"' && byte != 127
}

fn all_value_bytes(bytes: &[u8]) -> bool
    ensures { result ≡ list_all is_value_byte bytes.now }
{
    bytes.iter().all(|byte| is_value_byte(*byte))
}

fn is_value(text: &str) -> bool
    ensures { result ≡ is_value text.now }
{
    let bytes = text.as_bytes();
    1 <= bytes.len() && bytes.len() <= 64 && all_value_bytes(bytes)
}

fn all_values(texts: &[Text]) -> bool
    ensures { result ≡ list_all is_value texts.now }
{
    texts.iter().all(|text| is_value(text.as_str()))
}

fn category_in_range(category: &Category) -> bool
    ensures { result ≡ category_in_range category.now }
{
    let values = category.values.as_slice();
    is_category_name(category.name.as_str())
        && 1 <= values.len()
        && values.len() <= 256
        && all_values(values)
}

fn all_in_range(categories: &[Category]) -> bool
    ensures { result ≡ list_all category_in_range categories.now }
{
    categories.iter().all(category_in_range)
}

fn categories_in_range(categories: &[Category]) -> bool
    ensures { result ≡ categories_in_range categories.now }
{
    categories.len() <= 4 && all_in_range(categories)
}

fn weight_in_range(weight: &Option<Text>) -> bool
    ensures { result ≡ weight_in_range weight.now }
{
    match weight {
        Some(name) => is_category_name(name.as_str()),
        None => true,
    }
}

fn member_in_range(draft: &Draft, member: Member) -> bool
    ensures { result ≡ member_in_range draft.now member }
{
    match member {
        Member::Asks => are_files(0, draft.asks.as_slice()),
        Member::Batch => 1 <= draft.batch && draft.batch <= 65_536,
        Member::Categories => categories_in_range(draft.categories.as_slice()),
        Member::Depth => 1 <= draft.depth && draft.depth <= 20,
        Member::Feeds => are_files(1, draft.feeds.as_slice()),
        Member::Finals => are_files(0, draft.finals.as_slice()),
        Member::Journal => is_file_name(draft.journal.as_str()),
        Member::Start => true,
        Member::Version => draft.version == version_of(&draft.weight),
        Member::Weight => weight_in_range(&draft.weight),
        Member::Width => 1 <= draft.width,
    }
}

/// The first member that is out of its range.
#[tactic(auto, unfolding(crate::specs::Ranges::first_out_of_range))]
pub(crate) fn first_out_of_range(draft: &Draft) -> Option<Member>
    ensures { result ≡ first_out_of_range draft.now }
{
    MEMBERS
        .iter()
        .copied()
        .find(|member| !member_in_range(draft, *member))
}
