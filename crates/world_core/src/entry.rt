//! What a feeder sends.

use cube_view::Point;

/// A point that a feeder sent: the feeder's number from 1, how many it had sent before, and the point.
#[derive(Clone, Copy, PartialEq, Eq, Debug)]
pub struct Entry {
    pub feeder: u8,
    pub number: u32,
    pub point: Point,
}
