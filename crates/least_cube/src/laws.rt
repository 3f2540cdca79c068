//! What a least cube is, as laws of the definitions.
ghost use Rattle.least_cube.specs.Least.{TellsFewest, TellsNeeded, TellsOneFinest, TellsTargets};

/// In every shape a link is proper where no finer address has all the spots under its own; and a shape in which
/// no other link is proper has no more slots, nodes, time tables and proper links than any shape with the same
/// spots. Its links are determined by the spots: each leads to the slot at the one finest address that has all
/// spots of the link's own. It does nothing when run.
pub fn least_laws()
    ensures needed { TellsNeeded }
    ensures fewest { TellsFewest }
    ensures targets { TellsTargets }
    ensures finest { TellsOneFinest }
{}
