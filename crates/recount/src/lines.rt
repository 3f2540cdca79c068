//! The lines of a text.
ghost use Rattle.std.specs.Prelude.{◌≡◌, ◌==◌, position, IfSome, IfNone};
ghost use Rattle.texts.specs.LineFeeds.{NoFeed};
ghost use Rattle.recount.specs.Comparing.{SplitsFirst};

/// A line without its line feed, the same with it, and what follows it.
#[derive(Clone, Copy)]
pub struct FirstLine<'a> {
    pub line: &'a [u8],
    pub whole: &'a [u8],
    pub rest: &'a [u8],
}

/// Where the first line feed is.
fn line_feed(text: &[u8]) -> Option<usize>
    ensures { result ≡ position (λ b. b == 10) text.now }
{
    text.iter().position(|b| *b == b'\n')
}

/// The first line of a text; none where the text has no line feed.
pub fn first_line(text: &[u8]) -> Option<FirstLine<'_>>
    ensures some { IfSome result (λ first. SplitsFirst text.now first.line.now first.whole.now first.rest.now) }
    ensures none { IfNone result (NoFeed text.now) }
{
    let at = line_feed(text)?;
    Some(FirstLine {
        line: &text[..at],
        whole: &text[..at + 1],
        rest: &text[at + 1..],
    })
}
