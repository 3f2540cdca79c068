//! Counts that stand still at their type's end.
ghost use Rattle.std.specs.Prelude.{◌≡◌};
ghost use Rattle.texts.specs.Counts.{next_count};

/// The count after this one. It stands still at its type's end.
pub fn next_count(count: u64) -> u64
    ensures { result ≡ next_count count }
{
    count.saturating_add(1)
}
