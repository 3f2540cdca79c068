//! Text. A feed that is made from two numbers, so that a run over it can be repeated by anybody. [`GenSource`] is a
//! source of its bytes, which are the definition `generated_feed` of `specs/GeneratedFeed.antt`.
//!
//! It stands on `outer_io`, which says what a source is. What its rows mean under a plan is left to whoever reads them.
//!
//! ```
//! let mut source = GenSource::new(1, 1);
//! let mut buf = [0; 64];
//! assert_eq!(rt; source.read(&mut buf), Ok(28));
//! assert_eq!(rt; &buf[..28], b"x,y,kind,time\n433,374,d,940\n".as_slice());
//! ```
#![tactic(auto)]

mod line;
mod rest;
mod rows;
mod source;
#[cfg(test)]
mod tests;

pub use source::GenSource;
