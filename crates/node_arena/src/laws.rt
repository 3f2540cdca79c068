//! What the shape of a cube says of its walks, its counts and its links, as laws of the definitions.
ghost use Rattle.node_arena.specs.Reach.{TellsWalks, TellsWeights};
ghost use Rattle.node_arena.specs.Stats.{TellsLinks};

/// From the root an address is reached exactly where a spot lies under it, and a time table that is
/// reached counts the amounts there; so the cube counts at each spot as much as the list has at it. There is one
/// proper link to each slot but the root. It does nothing when run.
pub fn shape_laws()
    ensures walks { TellsWalks }
    ensures weights { TellsWeights }
    ensures links { TellsLinks }
{}
