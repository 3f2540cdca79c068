//! Rectangles of finest tiles.

/// The finest tiles with columns from `x0` on under `x1` and rows from `y0` on under `y1`.
#[derive(Clone, Copy, PartialEq, Eq, Debug)]
pub struct Rect {
    pub x0: u32,
    pub y0: u32,
    pub x1: u32,
    pub y1: u32,
}
