//! Cube. What the least cube of its records is, as laws of the definitions.
//!
//! A cube is least where no link is proper whose address another, finer one could have served: one that has all the
//! records of it. In every cube such links are the ones that have to be proper, and of all cubes of the same
//! records a least one has the fewest slots. The crate stands on the shape of `node_arena`. That a cube is least,
//! and how one is made, it leaves to the crates above.
//!
//! ```text
//! IsLeast slots homes spots: no proper link of the slots has an address that a finer one could have served
//! ```
#![tactic(auto)]

mod laws;

pub use laws::least_laws;
