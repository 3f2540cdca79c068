//! Program. The forms of the program: which words of a command line are one, and what they ask for. [`form_of_words`]
//! reads a verb and what stands behind it, and its [`Form`] has a variant for each verb, with names or a number.
//!
//! It stands on `texts` for decimals, and knows neither files nor feeds. What each form does is left to `top_call`,
//! which alone calls it.
//!
//! ```
//! let form = form_of_words(&words);    // Some(Form::Run { plan: "plan.json" }) of: run plan.json
//! ```
#![tactic(auto)]

mod form;

pub use form::{Form, form_of_words};
