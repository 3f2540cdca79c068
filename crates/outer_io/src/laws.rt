//! What counts of faults add up to, as a law of the definitions.
ghost use Rattle.outer_io.specs.Faults.{EachRiseCounts};

/// A place's count that rose once for each of k parts rose by k. It does nothing when run.
pub fn fault_laws()
    ensures { EachRiseCounts }
{}
