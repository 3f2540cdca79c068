//! How a copy takes in what is sent.
ghost use Rattle.std.specs.Prelude.{◌≡◌, ◌+◌, nat_le};
ghost use Rattle.cube_view.specs.Bag.{most_points};
ghost use Rattle.published_pair.specs.Pair.{standing, absorbed};

use super::{Sent, Stand};
use crate::names::Standing;
use cube_view::{Grow, are_sound};
use ghost_values::GhostList;
use left_right::Absorb;
use std::alloc::AllocError;
use std::mem::replace;

fn has_room(seen: u64, more: usize) -> bool
    ensures { result ≡ nat_le (seen + more) most_points }
{
    seen.saturating_add(more as u64) <= 1 << 35
}

impl<V: Grow> Absorb<Sent> for Stand<V> {
    type State = Standing;

    ghost state = { λ s. standing s.history.items s.front (V.schema s.view) };

    ghost applied = { absorbed };

    fn absorb_first(&mut self, operation: &Sent, _other: &Stand<V>) -> Result<(), AllocError> {
        let points = match operation {
            Sent::Added(points) => points.as_slice(),
            Sent::Noted(front) => {
                self.front = front.again();
                return Ok(());
            }
        };
        if !has_room(self.view.seen(), points.len()) || !are_sound(self.view.schema(), points) {
            return Ok(());
        }
        match self.view.insert_all(points) {
            Ok(()) => {
                let history = replace(&mut self.history, GhostList::new());
                self.history = history.with_all(points);
                Ok(())
            }
            Err(_) => Err(AllocError),
        }
    }
}
