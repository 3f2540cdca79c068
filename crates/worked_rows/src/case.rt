//! A case: its files, and the report of what was run over them.
use crate::bytes::numbers_of;
use crate::draft::Draft;
use crate::files::{Files, run};
use crate::line::Line;
use anyhow::{Result, bail};
use std::alloc::Global;
use std::mem;
use std::sync::Wait;
use std::thread::Threads;
use texts::List;
use top_call::Status;

/// The files of the case at hand, the file that is being written, the puts of the next output that fail, and the report
/// so far.
#[derive(Drop)]
pub(crate) struct Case {
    alloc: Global,
    files: Files,
    draft: Option<Draft>,
    fails: List<u32>,
    report: Vec<u8>,
}

/// The words of the text.
fn words_of(alloc: Global, text: &str) -> Result<Vec<String>> {
    let mut words = Vec::new(alloc);
    for word in text.split_whitespace() {
        let word = String::from_str(alloc, word)?;
        words.push(word)?;
    }
    Ok(words)
}

impl Case {
    /// No files, and an empty report.
    pub(crate) fn new(alloc: Global) -> Case {
        Case {
            alloc,
            files: Files::failing(alloc),
            draft: None,
            fails: List::new(alloc),
            report: Vec::new(alloc),
        }
    }

    /// What the cases left.
    pub(crate) fn into_report(self) -> Vec<u8> {
        self.report
    }

    /// Does what the line says.
    pub(crate) fn take<R: AllocGlobal + Threads + Wait + Sync>(
        &mut self,
        rt: &R,
        line: Line<'_>,
    ) -> Result<()> {
        match line {
            Line::Text(text) => return self.write(text, "\n"),
            Line::Piece(text) => return self.write(text, ""),
            Line::Repeated(text) => return self.write_repeated(text),
            _ => self.put_draft()?,
        }
        match line {
            Line::Case(name) => self.begin(name, Files::failing(rt.alloc())),
            Line::Still(name) => self.begin(name, Files::still(rt.alloc())),
            Line::File(text) => {
                self.draft = Some(Draft::begin(self.alloc, text)?);
                Ok(())
            }
            Line::Fail(text) => self.fail(text),
            Line::Puts(text) => self.fail_puts(text),
            Line::Run(text) => self.run(rt, text),
            Line::Quiet(text) => self.run_quietly(rt, text),
            Line::Show(text) => self.show(text),
            Line::Sorted(name) => self.show_sorted(name),
            Line::Unknown => bail!("no line of cases"),
            _ => Ok(()),
        }
    }

    /// Puts the file that is being written into its place, if there is one.
    fn put_draft(&mut self) -> Result<()> {
        match self.draft.take() {
            Some(draft) => self.files.put(draft),
            None => Ok(()),
        }
    }

    /// Begins a case over these files.
    fn begin(&mut self, name: &str, files: Files) -> Result<()> {
        self.files = files;
        self.fails = List::new(self.alloc);
        self.note(&["== ", name, "\n"])
    }

    /// Adds texts to the report.
    fn note(&mut self, texts: &[&str]) -> Result<()> {
        for text in texts {
            self.report.extend_from_slice(text.as_bytes())?;
        }
        Ok(())
    }

    /// Adds bytes to the report, and where they end without a line feed a line that says so.
    fn note_bytes(&mut self, bytes: &[u8]) -> Result<()> {
        self.report.extend_from_slice(bytes)?;
        if bytes.is_empty() || bytes.ends_with(b"\n") {
            return Ok(());
        }
        self.note(&["\n(no line feed)\n"])
    }

    /// Adds text to the file that is being written.
    fn write(&mut self, text: &str, end: &str) -> Result<()> {
        let Some(draft) = &mut self.draft else {
            bail!("no file is being written");
        };
        draft.add(text)?;
        draft.add(end)
    }

    /// Adds text to the file that is being written, so often.
    fn write_repeated(&mut self, text: &str) -> Result<()> {
        match &mut self.draft {
            Some(draft) => draft.add_repeated(text),
            None => bail!("no file is being written"),
        }
    }

    /// Says of a call on a name that it fails.
    fn fail(&mut self, text: &str) -> Result<()> {
        match text.split_once(' ') {
            Some((call, name)) => self.files.fail(call, name),
            None => bail!("a call and a name are wanted"),
        }
    }

    /// Says of puts that they fail.
    fn fail_puts(&mut self, text: &str) -> Result<()> {
        let Some((name, numbers)) = text.split_once(' ') else {
            bail!("a name and numbers are wanted");
        };
        let numbers = numbers_of(self.alloc, numbers)?;
        if name == "-" {
            self.fails = numbers;
            return Ok(());
        }
        self.files.fail_puts(name, numbers)
    }

    /// Runs the top call on the words, and gives its status and output.
    fn call<R: AllocGlobal + Threads + Wait + Sync>(
        &mut self,
        rt: &R,
        text: &str,
    ) -> Result<(Status, Vec<u8>)> {
        let words = words_of(self.alloc, text)?;
        let fails = mem::replace(&mut self.fails, List::new(self.alloc));
        run(rt, &mut self.files, words.as_slice(), fails)
    }

    /// Reports the status.
    fn note_status(&mut self, status: Status) -> Result<()> {
        let code = format!(in self.alloc; "status {}\n", status.code())?;
        self.note(&[code.as_str()])
    }

    /// Runs the top call on the words, and reports them, its output and its status.
    fn run<R: AllocGlobal + Threads + Wait + Sync>(&mut self, rt: &R, text: &str) -> Result<()> {
        let (status, out) = self.call(rt, text)?;
        self.note(&["$ ", text, "\n"])?;
        self.note_bytes(out.as_slice())?;
        self.note_status(status)
    }

    /// Runs the top call on the words, and reports them and its status.
    fn run_quietly<R: AllocGlobal + Threads + Wait + Sync>(
        &mut self,
        rt: &R,
        text: &str,
    ) -> Result<()> {
        let (status, _) = self.call(rt, text)?;
        self.note(&["$ ", text, "\n"])?;
        self.note_status(status)
    }

    /// Reports the named files.
    fn show(&mut self, text: &str) -> Result<()> {
        for name in text.split_whitespace() {
            self.show_file(name)?;
        }
        Ok(())
    }

    /// Reports the named file, its lines sorted.
    fn show_sorted(&mut self, name: &str) -> Result<()> {
        let text = match self.files.file(name).map(str::from_utf8) {
            Some(Ok(text)) => String::from_str(self.alloc, text)?,
            Some(Err(_)) => bail!("{name} is no text"),
            None => bail!("{name} is absent"),
        };
        let mut lines: Vec<&str> = text.as_str().lines().collect(self.alloc)?;
        lines.sort()?;
        self.note(&["-- ", name, ", sorted\n"])?;
        for line in &lines {
            self.note(&[*line, "\n"])?;
        }
        Ok(())
    }

    /// Reports the named file.
    fn show_file(&mut self, name: &str) -> Result<()> {
        let bytes = match self.files.file(name) {
            Some(bytes) => Vec::from_slice(self.alloc, bytes)?,
            None => return self.note(&["-- ", name, " is absent\n"]),
        };
        self.note(&["-- ", name, "\n"])?;
        self.note_bytes(bytes.as_slice())
    }
}
