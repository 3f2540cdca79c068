//! Numbers and points that are drawn.
ghost use Rattle.std.specs.Prelude.{◌≤◌, ◌<◌};

use crate::counts::Shape;
use cube_view::{Point, Spot};
use std::alloc::{AllocError, Global};

/// Numbers that are drawn one after another, by a linear congruence.
#[derive(Clone, Copy)]
pub(crate) struct Draws {
    pub(crate) state: u64,
}

impl Draws {
    /// The next number, which is under the bound.
    pub(crate) fn under(&mut self, bound: u32) -> u32
        requires { 0 < bound }
        ensures { result < bound }
    {
        self.state = self
            .state
            .wrapping_mul(6_364_136_223_846_793_005)
            .wrapping_add(1_442_695_040_888_963_407);
        (self.state >> 33) as u32 % bound
    }

    /// Whether one of so many draws comes.
    pub(crate) fn one_of(&mut self, count: u32) -> bool
        requires { 0 < count }
    {
        self.under(count) == 0
    }
}

/// No to three categories of two or three values each.
pub(crate) fn draw_shape(draws: &mut Draws, depth: u8) -> Shape {
    let categories = draws.under(4) as usize;
    let mut values = [0; 4];
    for k in 0..categories {
        values[k] = if draws.one_of(2) { 2 } else { 3 };
    }
    Shape { depth, values }
}

/// A number under the count, or 0 under none.
fn draw_value(draws: &mut Draws, count: u16) -> u8
    requires { count ≤ 256 }
{
    if count == 0 {
        0
    } else {
        draws.under(u32::from(count)) as u8
    }
}

/// A point of a space of so many levels, with values of categories that have so many, in one of so many bins.
pub(crate) fn draw_point(draws: &mut Draws, depth: u8, values: &[u16; 4], bins: u32) -> Point
    requires deep { depth ≤ 20 }
    requires some { 0 < bins }
{
    let side = 1u32 << depth;
    let spot = Spot {
        x: draws.under(side),
        y: draws.under(side),
        values: [
            draw_value(draws, values[0].min(256)),
            draw_value(draws, values[1].min(256)),
            draw_value(draws, values[2].min(256)),
            draw_value(draws, values[3].min(256)),
        ],
        bin: draws.under(bins),
    };
    Point {
        spot,
        weight: draws.under(5) + 1,
    }
}
