//! Rows as they are stored, with totals of 32 or of 64 bits.
ghost use Rattle.std.specs.Prelude.{◌≡◌, ℕ, ◌<◌, ◌≤◌, ◌^◌, refl};
ghost use Rattle.time_table.specs.declared.row.Row.{Row as Seen};

use crate::row::{Row, ThinRow};
use probe_core::Keyed;

/// A row as it is stored, whose total is less than a limit.
pub trait StoredRow: Keyed + Copy {
    ghost seen: { Self → Seen };

    ghost limit: { ℕ };

    /// Stores a row.
    fn store(row: Row) -> Self
        requires { row.total < limit }
        ensures { seen result ≡ row };

    /// The row that is stored.
    fn load(self) -> Row
        ensures row { result ≡ seen self }
        ensures small { result.total < limit }
        ensures limit { limit ≤ 2 ^ 64 };

    ghost by_bin: { (stored : Self) → Self.key stored ≡ (seen stored).bin };
}

impl StoredRow for ThinRow {
    ghost seen = { λ stored. stored };

    ghost limit = { 2 ^ 32 };

    ghost by_bin = { λ stored. refl };

    fn store(row: Row) -> ThinRow {
        ThinRow::of(row.bin, row.total)
    }

    fn load(self) -> Row {
        self.row()
    }
}

impl StoredRow for Row {
    ghost seen = { λ stored. stored };

    ghost limit = { 2 ^ 64 };

    ghost by_bin = { λ stored. refl };

    fn store(row: Row) -> Row {
        row
    }

    fn load(self) -> Row {
        self
    }
}
