//! What addresses say in the words of walks, as a law of the definitions.
ghost use Rattle.cube_view.specs.Paths.{StepsTellSpots};

/// A spot of a schema lies under an address exactly where its path lies under the address's steps. It does nothing when
/// run.
pub fn address_laws()
    ensures { StepsTellSpots }
{}
