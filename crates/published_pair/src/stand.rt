//! One of the two copies, and what it takes in.
ghost use Rattle.cube_view.specs.Bag.{Counts};

use crate::book::Front;
use cube_view::{Grow, Point};
use ghost_values::GhostList;
use texts::List;

/// A view, the list of points that it counts, and the published list that it stands at once it is shown.
#[derive(Drop)]
pub struct Stand<V: Grow> {
    pub view: V,
    pub history: GhostList<Point>,
    pub front: Front,
    ghost counts: { Counts (V.weight_at view) (V.seen view) history.items },
}

/// What the publisher sends to both copies: the points of a publication, or the list that is published with all points
/// sent before.
#[derive(Drop)]
pub enum Sent {
    Added(List<Point>),
    Noted(Front),
}

mod absorbing;
