//! The rows of a map, taken off the front by their tiles.
ghost use Rattle.std.specs.Prelude.{◌≡◌};
ghost use Rattle.cross_table.specs.Ranking.{total_of_row};
ghost use Rattle.reply_sums.specs.Areas.{after_head, head_total, is_none_left, is_row_of, same_tile};

use cube_view::Tile;
use query_syntax::RowOut;
use std::marker::Model;

/// The rows of a map that are left, seen as their list.
#[derive(Drop)]
pub(crate) struct Cursor<'a> {
    rows: &'a [RowOut],
    taken: usize,
}

impl<'a> Model for Cursor<'a> {
    ghost use Rattle.std.specs.Prelude.{List, drop};
    ghost use Rattle.query_syntax.specs.declared.table.RowOut.{RowOut};

    ghost Value = { List RowOut };

    ghost view = { λ c. drop c.taken c.rows.now };
}

fn is_same_tile(tile: &Tile, other: &Tile) -> bool
    ensures { result ≡ same_tile tile.now other.now }
{
    tile.z == other.z && tile.x == other.x && tile.y == other.y
}

fn is_row_of(tile: &Tile, row: &RowOut) -> bool
    ensures { result ≡ is_row_of tile.now row.now }
{
    match row {
        RowOut::Area(own, total) => is_same_tile(tile, own) && *total != 0,
        RowOut::One(_) | RowOut::Value(..) | RowOut::Bin(..) | RowOut::Pair(..) => false,
    }
}

fn total_of_row(row: &RowOut) -> u64
    ensures { result ≡ total_of_row row.now }
{
    match row {
        RowOut::One(total)
        | RowOut::Value(_, total)
        | RowOut::Area(_, total)
        | RowOut::Bin(_, total)
        | RowOut::Pair(_, _, total) => *total,
    }
}

impl<'a> Cursor<'a> {
    /// All of the rows.
    pub(crate) fn new(rows: &'a [RowOut]) -> Cursor<'a>
        ensures { result ≡ rows.now }
    {
        Cursor { rows, taken: 0 }
    }

    /// Takes the tile's row off the front, if it is there, and gives its total, else 0.
    pub(crate) fn take(&mut self, tile: &Tile) -> u64
        ensures total { result ≡ head_total tile.now self.old }
        ensures rest { self.new ≡ after_head tile.now self.old }
    {
        match self.rows.get(self.taken) {
            Some(row) if is_row_of(tile, row) => {
                self.taken += 1;
                total_of_row(row)
            }
            _ => 0,
        }
    }

    /// Whether no row is left.
    pub(crate) fn is_done(&self) -> bool
        ensures { result ≡ is_none_left self.now }
    {
        self.taken >= self.rows.len()
    }
}
