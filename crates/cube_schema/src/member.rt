//! The members of a plan's object.
ghost use Rattle.std.specs.Prelude.{◌≡◌, Some, option_map, option_and_then};

/// A member of a plan's object, in the byte order of the names.
#[derive(Clone, Copy, PartialEq, Eq, Debug)]
pub enum Member {
    Asks,
    Batch,
    Categories,
    Depth,
    Feeds,
    Finals,
    Journal,
    Start,
    Version,
    Weight,
    Width,
}

/// The members in the byte order of their names.
pub(crate) const MEMBERS: [Member; 11] = [
    Member::Asks,
    Member::Batch,
    Member::Categories,
    Member::Depth,
    Member::Feeds,
    Member::Finals,
    Member::Journal,
    Member::Start,
    Member::Version,
    Member::Weight,
    Member::Width,
];

impl Member {
    ghost use Rattle.cube_schema.specs.Members.{member_name};

    /// Its name in the text of a plan.
    pub fn name(self) -> &'static str
        ensures { result.now ≡ member_name self }
    {
        match self {
            Member::Asks => "asks",
            Member::Batch => "batch",
            Member::Categories => "categories",
            Member::Depth => "depth",
            Member::Feeds => "feeds",
            Member::Finals => "finals",
            Member::Journal => "journal",
            Member::Start => "start",
            Member::Version => "version",
            Member::Weight => "weight",
            Member::Width => "width",
        }
    }
}
