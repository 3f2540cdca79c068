//! How many changes an insertion makes at most.
ghost use Rattle.std.specs.Prelude.{◌≡◌, ◌*◌};
ghost use Rattle.point_insert.specs.Room.{visits};

use cube_view::Schema;

/// Enough changes for one insertion: five for each node address that holds a point.
pub fn insert_room(schema: &Schema) -> usize
    ensures { result ≡ 5 * visits schema.now }
{
    // A category has two levels, its top and its value; each of their contents begins the next dimension.
    let mut below = 0;
    for _ in 0..schema.categories.len() {
        below = 2 * (1 + below);
    }
    // Two changes for a node of the trail and three for its visit: a content that is made or copied, its link, its
    // amount.
    5 * ((schema.depth as usize + 1) * (1 + below))
}
