//! What the filters of a line said so far.
ghost use Rattle.std.specs.Prelude.{◌≡◌, ◌<◌, length, slice_set, is_some, unwrap_or, Some};
ghost use Rattle.query_syntax.specs.Filters.{no_filters};
ghost use Rattle.query_syntax.specs.Items.{has_item};
ghost use Rattle.query_syntax.specs.Meaning.{query_with};
ghost use Rattle.query_syntax.specs.Queries.{whole_space};

use crate::verb_words::BINS;
use crate::{Choice, Query, Span, Verb};
use cube_view::Tile;
use std::marker::Model;

/// What the filters of a line said so far, seen as what each kind said, with `None` where there was none of the kind.
/// There the part is the one with which everything counts, so that the parts are those of a query.
#[derive(Drop)]
pub struct FiltersRead {
    region: Tile,
    sets: [Choice; 4],
    time: Span,
    has_region: bool,
    has_sets: [bool; 4],
    has_time: bool,
}

impl Model for FiltersRead {
    ghost use Rattle.std.specs.Prelude.{is_some, map, unwrap_or};
    ghost use Rattle.query_syntax.specs.Filters.{Filters};
    ghost use Rattle.query_syntax.specs.FilterParts.{said_by, ArePartsOf};
    ghost use Rattle.query_syntax.specs.PartsBack.{flag_back, flags_back};
    ghost use Rattle.query_syntax.specs.Queries.{whole_space, all_bins};
    ghost use Rattle.query_syntax.specs.declared.query.Choice.TheVariants.{All};

    ghost Value = { Filters };

    ghost view = { λ f. said_by f.region f.sets f.time f.has_region f.has_sets f.has_time };

    ghost invariant = { λ f. ArePartsOf f.region f.sets f.time f.has_region f.has_sets f.has_time };

    ghost inverse = { λ said. record { region = unwrap_or said.region whole_space; sets = map (λ set. unwrap_or set All) said.sets; time = unwrap_or said.time all_bins; has_region = is_some said.region; has_sets = map is_some said.sets; has_time = is_some said.time } };

    ghost inverse_ok = { λ f h i. record { region = h.tile i; sets = h.choices i; time = h.span i; has_region = flag_back f.has_region f.region i; has_sets = flags_back f.has_sets f.sets h.flags h.four i; has_time = flag_back f.has_time f.time i } };
}

impl FiltersRead {
    /// No filter yet.
    pub fn none() -> FiltersRead
        ensures { result ≡ no_filters }
    {
        FiltersRead {
            region: Tile { z: 0, x: 0, y: 0 },
            sets: [Choice::All; 4],
            time: Span { from: 0, to: BINS },
            has_region: false,
            has_sets: [false; 4],
            has_time: false,
        }
    }

    /// Whether there was a tile.
    pub fn has_region(&self) -> bool
        ensures { result ≡ is_some self.now.region }
    {
        self.has_region
    }

    /// Whether there was an interval.
    pub fn has_time(&self) -> bool
        ensures { result ≡ is_some self.now.time }
    {
        self.has_time
    }

    /// Whether the category of that number, from 0, has had an item.
    pub fn has_item(&self, k: usize) -> bool
        requires { k < 4 }
        ensures had { result ≡ has_item self.now.sets k }
        ensures places { length self.now.sets ≡ 4 }
    {
        self.has_sets[k]
    }

    /// The level of the tile, or 0 where there was none.
    pub fn level(&self) -> u8
        ensures { result ≡ (unwrap_or self.now.region whole_space).z }
    {
        self.region.z
    }

    /// Sets the tile.
    pub fn set_region(&mut self, region: Tile)
        ensures { self.new ≡ record self.old { region = Some region } }
    {
        self.region = region;
        self.has_region = true;
    }

    /// Sets the values of the category of that number, from 0.
    pub fn set_item(&mut self, k: usize, choice: Choice)
        requires { k < 4 }
        ensures { self.new ≡ record self.old { sets = slice_set self.old.sets k (Some choice) } }
    {
        self.sets[k] = choice;
        self.has_sets[k] = true;
    }

    /// Sets the interval.
    pub fn set_time(&mut self, time: Span)
        ensures { self.new ≡ record self.old { time = Some time } }
    {
        self.time = time;
        self.has_time = true;
    }

    /// The query of a verb and these filters.
    pub fn into_query(self, verb: Verb) -> Query
        ensures { result ≡ query_with verb self }
    {
        let FiltersRead {
            region,
            sets,
            time,
            ..
        } = self;
        Query {
            verb,
            region,
            sets,
            time,
        }
    }
}
