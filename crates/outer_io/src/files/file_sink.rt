//! A sink over a writer of the system.
ghost use Rattle.std.specs.Prelude.{◌≡◌, OnErr, IsOkUnless};
ghost use Rattle.texts.specs.Counts.{next_count};
ghost use Rattle.outer_io.specs.Faults.{HasCause};

use crate::{IoFault, Sink};
use std::io::Write;
use std::marker::Model;
use texts::{Text, next_count};

/// A file or another writer, of whose bytes nothing is told. Contracts see its name and its count of faults.
#[derive(Drop)]
pub struct FileSink<F> {
    writer: F,
    name: Text,
    faults: u64,
}

impl<F> Model for FileSink<F> {
    ghost use Rattle.outer_io.specs.Places.{FileOutput};

    ghost Value = { FileOutput };

    ghost view = { λ s. record { name = s.name; faults = s.faults } };
}

impl<F> FileSink<F> {
    /// A sink that puts to the writer, under the name.
    pub(crate) fn new(writer: F, name: Text) -> FileSink<F>
        ensures { result ≡ record { name = name; faults = 0 } }
    {
        FileSink {
            writer,
            name,
            faults: 0,
        }
    }

    /// How many faults it met so far.
    pub(crate) fn faults(&self) -> u64
        ensures { result ≡ self.now.faults }
    {
        self.faults
    }
}

impl<F: Write> Sink for FileSink<F> {
    ghost use Rattle.std.specs.Prelude.{None};

    ghost held = { λ _. None };

    ghost faults = { λ s. s.faults };

    ghost name = { λ s. s.name };

    // `write_all` goes on until all is written, also where the system call was interrupted, and a file keeps nothing
    // back that were to be flushed.
    fn put(&mut self, bytes: &[u8]) -> Result<(), IoFault>
        ensures counted { OnErr result (self.new ≡ record self.old { faults = next_count self.old.faults }) }
        ensures cause { HasCause self.old.faults self.new.faults result IoFault.Failed }
        ensures name { self.new.name ≡ self.old.name }
        ensures failed { IsOkUnless result IoFault.Failed }
    {
        match self.writer.write_all(bytes) {
            Ok(()) => Ok(()),
            Err(_) => {
                self.faults = next_count(self.faults);
                Err(IoFault::Failed)
            }
        }
    }
}
