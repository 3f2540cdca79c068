//! Parts given back to their place, in the order in which they were made. A failure stops none of the later ones.
ghost use Rattle.std.specs.Prelude.{map};
ghost use Rattle.run_files.specs.GivingBack.{TakesSinks, TakesSources};
ghost use Rattle.run_files.specs.Outside.{of_place, of_sink};

use crate::stop::write_end;
use crate::{Stop, joined_ends};
use feed_reader::FeedJob;
use outer_io::{LineCutter, Place};

/// Gives sources back.
pub fn give_back_sources<P: Place>(place: &mut P, mut sources: Vec<P::In>)
    ensures { TakesSources (of_place P.Place) place.old place.new (map P.In.faults sources.items) }
{
    let Some(last) = sources.pop() else {
        sources.destroy_empty();
        return;
    };
    give_back_sources(place, sources);
    place.give_back_in(last);
}

/// Gives the sources of cutters back.
pub fn give_back_cutters<P: Place>(place: &mut P, mut cutters: Vec<LineCutter<P::In>>)
    ensures { TakesSources (of_place P.Place) place.old place.new (map (λ c. P.In.faults c.source) cutters.items) }
{
    let Some(last) = cutters.pop() else {
        cutters.destroy_empty();
        return;
    };
    give_back_cutters(place, cutters);
    place.give_back_in(last.into_source());
}

/// Gives the sources of feeds back.
pub fn give_back_feeds<P: Place>(place: &mut P, mut feeds: Vec<FeedJob<P::In>>)
    ensures { TakesSources (of_place P.Place) place.old place.new (map (λ f. P.In.faults f.cutter.source) feeds.items) }
{
    let Some(last) = feeds.pop() else {
        feeds.destroy_empty();
        return;
    };
    give_back_feeds(place, feeds);
    let FeedJob { cutter, header: _ } = last;
    place.give_back_in(cutter.into_source());
}

/// Gives sinks back, and says how that ended: by what comes first in the order of what went wrong.
pub fn give_back_sinks<P: Place>(place: &mut P, mut sinks: Vec<P::Out>) -> Result<(), Stop>
    ensures { TakesSinks (of_place P.Place) (of_sink P.Out.Sink) place.old place.new sinks.items result }
{
    let Some(last) = sinks.pop() else {
        sinks.destroy_empty();
        return Ok(());
    };
    let earlier = give_back_sinks(place, sinks);
    let end = place.give_back_out(last);
    joined_ends(earlier, write_end(end))
}
