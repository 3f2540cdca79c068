//! Text. Lists, texts and bytes as every other crate has them, and that memory is wanted.
//!
//! A [`List`] is seen by contracts as its items in order and a [`Text`] as its bytes, whatever room they hold. Bytes
//! are put after others by [`put`] and [`put_byte`]. Numbers that come in as text are read by [`decimal_of`], so that
//! feeds and queries have one kind of decimal, and a count that has come to its type's end stands still by
//! [`next_count`].
//! Whatever takes memory answers [`NoMemory`] where there is none. The crate stands on `arrayvec` for short texts. It
//! knows no file: where bytes come from and go to is left to `outer_io`.
//!
//! ```
//! let mut names = List::new(alloc);
//! names.add(Text::copy_of(alloc, "kind")?)?;
//! let number = decimal_of(b"007");  // Some(7)
//! ```
#![tactic(auto)]

mod bytes;
mod count;
mod decimal;
mod list;
mod no_memory;
mod text;

pub use bytes::{put, put_byte};
pub use count::next_count;
pub use decimal::decimal_of;
pub use list::List;
pub use no_memory::NoMemory;
pub use text::Text;
