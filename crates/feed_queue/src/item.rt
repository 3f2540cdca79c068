//! What goes through a lane.
use cube_view::Schema;
use world_core::Entry;

/// What a feeder sends: an entry, or its End, which is its number and how many entries it has sent.
#[derive(Clone, Copy, PartialEq, Eq, Debug)]
pub enum Item {
    One(Entry),
    End(u8, u32),
}

/// What the queue holds: a copy of the lane's schema while the lane is opened, and then items.
#[derive(Drop)]
pub enum Slot {
    Opens(Box<Schema>),
    Carries(Item),
}
