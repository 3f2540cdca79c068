//! Questions.
ghost use Rattle.std.specs.Prelude.{IfOk};
ghost use Rattle.live_sums.specs.Questions.{HasMeaning, IsAskValid};

use cube_view::Schema;
use outer_io::{Cut, LineCutter, Source};
use query_syntax::{Parsed, QueryFault, Verb, parse_into};
use run_files::{Stop, stop_of_cut};
use std::alloc::Global;
use texts::{NoMemory, put, put_byte};

/// How many bytes a line has that is sent for one that is too long: one more than any that is not.
const LONG_LINE: usize = 4097;

/// A question: what it means, and its line as it is sent.
#[derive(Drop)]
pub(crate) struct Question {
    pub asked: Parsed,
    pub line: Vec<u8>,
}

/// What the next line is: nothing that is asked, a question, or the end of all.
#[derive(Drop)]
pub(crate) enum Next {
    Nothing,
    Asks(Question),
    End,
}

/// Whether the bytes begin with a byte order mark, which is taken off the first line that a run reads.
fn has_mark(line: &[u8]) -> bool {
    match line {
        [0xEF, 0xBB, 0xBF, ..] => true,
        _ => false,
    }
}

/// Whether the bytes end with a carriage return, one of which is taken off each line.
fn ends_with_return(line: &[u8]) -> bool {
    line.len() > 0 && line[line.len() - 1] == b'\r'
}

/// The line as it is sent to a run, so that the run reads these bytes.
fn sent_line(alloc: Global, line: &[u8]) -> Result<Vec<u8>, NoMemory> {
    let mut sent = Vec::new(alloc);
    if has_mark(line) {
        put_byte(&mut sent, b'\n')?;
    }
    put(&mut sent, line)?;
    if ends_with_return(line) {
        put_byte(&mut sent, b'\r')?;
    }
    put_byte(&mut sent, b'\n')?;
    Ok(sent)
}

/// A line that is too long, as it is sent.
fn long_line(alloc: Global) -> Result<Vec<u8>, NoMemory> {
    let mut sent = vec![in alloc; b'x'; LONG_LINE]?;
    put_byte(&mut sent, b'\n')?;
    Ok(sent)
}

/// What a line asks that means this.
fn next_of(asked: Parsed, line: Vec<u8>) -> Next
    ensures { HasMeaning asked result }
{
    match &asked {
        Parsed::Skip => Next::Nothing,
        Parsed::Ask(query) if query.verb == Verb::Quit => Next::End,
        Parsed::Ask(_) | Parsed::Fault(..) => Next::Asks(Question { asked, line }),
    }
}

/// What the next line asks.
pub(crate) fn next_question<S: Source>(
    alloc: Global,
    schema: &Schema,
    cutter: &mut LineCutter<S>,
) -> Result<Next, Stop>
    ensures valid { IfOk result (IsAskValid schema.now) }
{
    match cutter.next() {
        Ok(Cut::Line(line, _)) => {
            let mut asked = Parsed::Skip;
            parse_into(schema, line.as_slice(), &mut asked);
            let sent = sent_line(alloc, line.as_slice())?;
            Ok(next_of(asked, sent))
        }
        Ok(Cut::Long(_)) => {
            let asked = Parsed::Fault(QueryFault::LongLine, 1);
            let line = long_line(alloc)?;
            Ok(Next::Asks(Question { asked, line }))
        }
        Ok(Cut::End) => Ok(Next::End),
        Err(fault) => Err(stop_of_cut(fault)),
    }
}
