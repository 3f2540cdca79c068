//! Text. Plans: what a run is told, as one JSON object. [`read_plan`] reads its bytes and [`print_plan`] writes them.
//!
//! It stands on `cube_view` for the schema, `outer_io` for texts and lists, and `serde_json` for JSON. It opens no
//! file: that is left to whoever runs the plan. What bytes mean is the definition `plan_meaning` of
//! `specs/Meaning.antt`, which names the first fault. A plan of version 2 names the column of its records' weights, one
//! of version 1 has none.
//!
//! ```
//! let text = r#"{"asks":[],"batch":1,"categories":[],"depth":3,"feeds":["a.csv"],"finals":[],"journal":"j.txt","start":0,"version":1,"width":10}"#;
//! let plan = read_plan(alloc, text.as_bytes()).ok().ok_or("it is a plan")?;
//! assert_eq!(rt; plan.feeds.as_slice().len(), 1);
//! assert_eq!(rt; print_plan(alloc, &plan)?.as_slice(), text.as_bytes());
//! ```
#![tactic(auto)]

mod draft;
mod fault;
mod kinds;
mod member;
mod names;
mod plan;
mod printing;
mod ranges;
mod reading;
mod repeats;
mod text_list;
mod versions;

pub use fault::PlanFault;
pub use member::Member;
pub use plan::Plan;
pub use printing::print_plan;
pub use reading::read_plan;
