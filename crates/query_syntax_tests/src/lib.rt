//! Tests. What lines of the query language mean, how their queries are printed, which queries a schema takes, and what
//! their tables are, on worked examples.
//!
//! Expected values are those of the language's definition, written out by hand. A test is a table of lines that a
//! helper takes one by one. It stands on `query_syntax` for the language and on `example_schemas` for a schema. All of
//! it is tests; what a cube answers is tested above.
//!
//! ```text
//! const BAD_TILE: [(&[u8], QueryFault, u32); 1] = [(b"count in 1/2/0", QueryFault::BadTile, 3)];
//! assert_eq!(rt; first_misread(rt.alloc(), &BAD_TILE), Ok(None));
//! ```
#![tactic(auto)]

#[cfg(test)]
mod fault_tests;
#[cfg(test)]
mod meaning_tests;
#[cfg(test)]
mod print_tests;
#[cfg(test)]
mod schemas;
#[cfg(test)]
mod table_tests;
#[cfg(test)]
mod valid_query_tests;
