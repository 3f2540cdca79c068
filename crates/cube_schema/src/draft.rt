//! What the members of a plan's text say.
use cube_view::Category;
use texts::{List, Text};

/// What the members of a plan's text say, before their ranges are tested.
#[derive(Drop)]
pub(crate) struct Draft {
    pub(crate) asks: List<Text>,
    pub(crate) batch: u64,
    pub(crate) categories: List<Category>,
    pub(crate) depth: u64,
    pub(crate) feeds: List<Text>,
    pub(crate) finals: List<Text>,
    pub(crate) journal: Text,
    pub(crate) start: u64,
    pub(crate) version: u64,
    pub(crate) weight: Option<Text>,
    pub(crate) width: u64,
}
