//! Texts, compared byte by byte.
ghost use Rattle.std.specs.Prelude.{◌≡◌};
ghost use Rattle.cube_view.specs.Limits.{has_text};

use cube_view::is_same_text;
use texts::Text;

/// Whether the text stands in the list.
pub(crate) fn has_text(texts: &[Text], text: &str) -> bool
    ensures { result ≡ has_text texts.now text.now }
{
    texts.iter().any(|other| is_same_text(text.as_bytes(), other.as_str().as_bytes()))
}
