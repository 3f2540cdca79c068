//! Where the bytes of a run's feeds and scripts come from.

use feed_maker::GenSource;
use outer_io::{Failed, Source, StillSource};

/// A generated feed, or a text that it holds. No read of it fails.
#[derive(Drop)]
pub(crate) enum RunSource {
    Made(GenSource),
    Held(StillSource),
}

impl Source for RunSource {
    ghost use Rattle.big_run.specs.Sources.{left_in, no_faults};

    ghost left = { λ s. left_in s };

    ghost faults = { λ s. no_faults s };

    fn read(&mut self, buf: &mut [u8]) -> Result<usize, Failed> {
        match self {
            RunSource::Made(source) => source.read(buf),
            RunSource::Held(source) => source.read(buf),
        }
    }
}
