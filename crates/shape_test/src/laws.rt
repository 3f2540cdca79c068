//! What the conditions on single slots say of the shape of a cube and of a schema's cubes, as laws of the definitions.
ghost use Rattle.shape_test.specs.Laws.{TellsCube, TellsLocal, DecidesCube, OwnsBag, OneHomes};

/// Slots of which the conditions hold are a cube: that of the spots which their tables at whole addresses count. And of
/// a cube, whatever list it counts, the conditions hold. It does nothing when run.
pub fn local_laws()
    ensures cube { TellsCube }
    ensures local { TellsLocal }
{}

/// The conditions on single slots hold exactly of a schema's cube of the slots' own bag. A cube of any spots is one of
/// its own bag, and slots have homes in one way. It does nothing when run.
pub fn fit_laws()
    ensures cube { DecidesCube }
    ensures bag { OwnsBag }
    ensures homes { OneHomes }
{}
