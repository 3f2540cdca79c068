//! What the definitions say, as laws.
ghost use Rattle.cross_table.specs.Order.{TopOrder};
ghost use Rattle.cross_table.specs.Sums.{CrossSum};

/// The totals of the rows of a cross table add up to the query's total, since each point has one value of each
/// category.
/// It does nothing when run.
pub fn cross_sum()
    ensures { CrossSum }
{}

/// The best tiles are in order, each has something, and another that has something is behind all of them. It does
/// nothing when run.
pub fn top_order()
    ensures { TopOrder }
{}
