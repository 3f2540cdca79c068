//! The lines of a file of cases.

/// What a line asks for. Names and words are separated by blanks, numbers by commas.
#[derive(Clone, Copy)]
pub(crate) enum Line<'a> {
    /// `# ..` or an empty line: nothing.
    Note,
    /// `case NAME`: a new case begins, over files of which calls may fail.
    Case(&'a str),
    /// `still NAME`: a new case begins, over files of which no call fails.
    Still(&'a str),
    /// `file NAME [in PIECE] [fails K,L]`: a file begins. It is read in pieces of so many bytes, and the reads of these
    /// numbers fail, from 1.
    File(&'a str),
    /// `|TEXT`: a line of the file.
    Text(&'a str),
    /// `+TEXT`: a piece of the file, without a line feed behind it.
    Piece(&'a str),
    /// `*N TEXT`: so many such pieces.
    Repeated(&'a str),
    /// `fail open NAME`, `fail create NAME`, `fail give_back NAME`: the next such call fails.
    Fail(&'a str),
    /// `puts NAME K,L`: puts of these numbers into the file fail, from 1. The name `-` is the output of the next run.
    Puts(&'a str),
    /// `run WORD ..`: the top call runs on the words. The words, the output and the status are reported.
    Run(&'a str),
    /// `quiet WORD ..`: the same, but the output is not reported, where it differs by the order of threads.
    Quiet(&'a str),
    /// `show NAME ..`: the files are reported.
    Show(&'a str),
    /// `sorted NAME`: the file is reported with its lines sorted, where their order is that of threads.
    Sorted(&'a str),
    /// No line of the language.
    Unknown,
}

/// What the line asks for, where it begins with a sign.
fn signed(text: &str) -> Option<Line<'_>> {
    if text.is_empty() || text.starts_with('#') {
        return Some(Line::Note);
    }
    if let Some(rest) = text.strip_prefix('|') {
        return Some(Line::Text(rest));
    }
    if let Some(rest) = text.strip_prefix('+') {
        return Some(Line::Piece(rest));
    }
    text.strip_prefix('*').map(Line::Repeated)
}

/// What the verb with the rest of its line asks for.
fn verb<'a>(verb: &str, rest: &'a str) -> Line<'a> {
    match verb {
        "case" => Line::Case(rest),
        "still" => Line::Still(rest),
        "file" => Line::File(rest),
        "fail" => Line::Fail(rest),
        "puts" => Line::Puts(rest),
        "run" => Line::Run(rest),
        "quiet" => Line::Quiet(rest),
        "show" => Line::Show(rest),
        "sorted" => Line::Sorted(rest),
        _ => Line::Unknown,
    }
}

/// What the line asks for.
pub(crate) fn line_of(text: &str) -> Line<'_> {
    if let Some(line) = signed(text) {
        return line;
    }
    match text.split_once(' ') {
        Some((word, rest)) => verb(word, rest),
        None => verb(text, ""),
    }
}
