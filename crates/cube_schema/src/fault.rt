//! Why bytes are no plan.
use crate::Member;
use texts::{NoMemory, Text};

/// Why bytes are no plan: the first fault, where `TooLong` is tested first and the others in their order.
#[derive(Drop)]
pub enum PlanFault {
    /// They are no JSON text.
    NotJson,
    /// The value is no object.
    NotObject,
    /// The first member that is absent.
    Missing(Member),
    /// The least name of a member that a plan does not have.
    Unknown(Text),
    /// The first member of the wrong kind.
    BadKind(Member),
    /// The first member out of its range.
    OutOfRange(Member),
    /// The first text that stood earlier among the columns, the values of a category, or the files.
    Repeated(Text),
    /// Memory was wanted and there was none. It says nothing of the bytes.
    NoMemory,
    /// There are more than 1,048,576 of them.
    TooLong,
}

impl From<NoMemory> for PlanFault {
    ghost use Rattle.std.specs.Prelude.{◌≡◌};
    ghost use Rattle.cube_schema.specs.declared.fault.PlanFault.TheVariants.{NoMemory};

    ghost from_gives = { λ _ fault. fault ≡ NoMemory };

    fn from(_refused: NoMemory) -> PlanFault {
        PlanFault::NoMemory
    }
}
