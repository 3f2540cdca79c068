//! Program. The form `save PLAN IMAGE` of the program: the cube of a plan's feeds, saved as its image.
//!
//! [`save_files`] reads the plan and the headers as a run does, reads the feeds in the plan's order into one cube, and
//! writes the cube's image to the named file. It says what was counted of the feeds and how long the image is, or the
//! one line of what is refused. Nothing is created before all feeds were read to their ends and the image stands in
//! memory.
//! How it ends is the record `SaveEnds` of `specs/Ends.antt`.
//!
//! `cube_of_feeds` reads the rows of feeds whose headers were read, feed by feed on one thread, and inserts the points
//! among them into a new cube, in order. Of each feed it says how many rows were accepted, blank and refused, and which
//! were refused first, as a run of threads does. The first fault of a cutter ends all. What it answers is `TakesFeeds`
//! of `specs/Taking.antt`.
//!
//! The crate stands on `run_files` for the plan and the headers, on `feed_reader` for rows and what is counted of them,
//! on `cube_store` for the cube, on `image_cube` for its image and on `image_run` for the line of a refused image.
//! Which words ask for it, and which exit code an end has, is left to the crate above.
//!
//! ```text
//! let end = save_files(alloc, "plan.json", "cube.img", &mut place, &mut out)?;
//! // ImageEnd::Done: "feed a.csv: 3 accepted, 0 blank, 0 refused\nimage: 400 bytes\n" was put
//! ```
#![tactic(auto)]

mod grouped_cube;
mod reading;
mod save;
mod saying;
mod taking;
mod tally;
mod writing;

pub use save::save_files;
