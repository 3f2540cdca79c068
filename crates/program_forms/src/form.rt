//! What the words of a command line ask for.
ghost use Rattle.std.specs.Prelude.{◌≡◌, ◌≤◌, IfSome, map, option_map, string_bytes};
ghost use Rattle.program_forms.specs.Forms.{form_of, HasFewRows};
ghost use Rattle.program_forms.specs.Rows.{generated_rows_of, most_generated_rows};
ghost use Rattle.program_forms.specs.Seen.{form_seen};

use texts::decimal_of;

/// The most rows of a generated feed.
const MOST_ROWS: u64 = 100_000;

/// What the words of a command line ask for: a variant for each form, with what stands behind its verb.
#[derive(Clone, Copy)]
pub enum Form<'a> {
    /// `demo FEED SCRIPT`
    Demo {
        feed: &'a str,
        script: &'a str,
    },
    /// `run PLAN`
    Run {
        plan: &'a str,
    },
    /// `big N`
    Big {
        rows: u32,
    },
    /// `recount PLAN JOURNAL SCRIPT REPLIES`
    Recount {
        plan: &'a str,
        journal: &'a str,
        script: &'a str,
        replies: &'a str,
    },
    /// `save PLAN IMAGE`
    Save {
        plan: &'a str,
        image: &'a str,
    },
    /// `load PLAN IMAGE SCRIPT`
    Load {
        plan: &'a str,
        image: &'a str,
        script: &'a str,
    },
}

/// The number of rows that the word writes: a decimal from 1 to the most, without leading zeros.
fn generated_rows_of(word: &[u8]) -> Option<u32>
    ensures rows { result ≡ generated_rows_of word.now }
    ensures few { IfSome result (λ rows. rows ≤ most_generated_rows) }
{
    if word.is_empty() || word[0] == b'0' {
        return None;
    }
    match decimal_of(word) {
        Some(rows) if rows <= MOST_ROWS => Some(rows as u32),
        _ => None,
    }
}

/// What the words ask for, if they are a form of the program.
pub fn form_of_words(words: &[String]) -> Option<Form<'_>>
    ensures form { option_map form_seen result ≡ form_of (map string_bytes words.now) }
    ensures few { IfSome result (λ form. HasFewRows (form_seen form)) }
{
    let (verb, names) = words.split_first()?;
    match verb.as_str() {
        "demo" => match names {
            [feed, script] => Some(Form::Demo {
                feed: feed.as_str(),
                script: script.as_str(),
            }),
            _ => None,
        },
        "run" => match names {
            [plan] => Some(Form::Run {
                plan: plan.as_str(),
            }),
            _ => None,
        },
        "big" => match names {
            [rows] => Some(Form::Big {
                rows: generated_rows_of(rows.as_str().as_bytes())?,
            }),
            _ => None,
        },
        "recount" => match names {
            [plan, journal, script, replies] => Some(Form::Recount {
                plan: plan.as_str(),
                journal: journal.as_str(),
                script: script.as_str(),
                replies: replies.as_str(),
            }),
            _ => None,
        },
        "save" => match names {
            [plan, image] => Some(Form::Save {
                plan: plan.as_str(),
                image: image.as_str(),
            }),
            _ => None,
        },
        "load" => match names {
            [plan, image, script] => Some(Form::Load {
                plan: plan.as_str(),
                image: image.as_str(),
                script: script.as_str(),
            }),
            _ => None,
        },
        _ => None,
    }
}
