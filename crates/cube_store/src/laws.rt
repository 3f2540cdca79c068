//! What the calls of a cube cost, as laws of the definitions.
ghost use Rattle.cube_store.specs.Holding.{BoundsBagCosts, TellsCosts, TellsWalkCosts};

/// The costs of a cube are numbers of its bag alone: how many labels below an address have a spot, and how many bins
/// the spots under an address have. So what a walk to an address costs is one too. Where bins or labels are under a
/// number, no more are counted. It does nothing when run.
pub fn cost_laws()
    ensures calls { TellsCosts }
    ensures walks { TellsWalkCosts }
    ensures bounds { BoundsBagCosts }
{}
