//! What the history of a pair is made of.
use cube_view::Point;

/// Some points were published after those before, or the publisher ended. No value of this type is made. A clause reads
/// an array as a list, of any length.
pub enum Note {
    Published([Point; 0]),
    Ended,
}
