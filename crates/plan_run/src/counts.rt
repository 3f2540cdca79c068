//! What is reported of feeds and scripts, collected while their sources are given back.
ghost use Rattle.std.specs.Prelude.{◌≡◌, ◌++◌, [], ◌∷◌, IfOk, IsOkAnd};

use feed_reader::FeedCounts;
use run_files::ScriptCounts;
use texts::NoMemory;

/// What was counted of all feeds, asks and finals.
#[derive(Drop)]
pub(crate) struct RunCounts {
    pub feeds: Vec<FeedCounts>,
    pub asks: Vec<ScriptCounts>,
    pub finals: Vec<ScriptCounts>,
}

/// All counts, where there was memory for each list of them.
pub(crate) fn all_counts(
    feeds: Result<Vec<FeedCounts>, NoMemory>,
    asks: Result<Vec<ScriptCounts>, NoMemory>,
    finals: Result<Vec<ScriptCounts>, NoMemory>,
) -> Result<RunCounts, NoMemory>
    ensures feeds { IfOk result (λ counts. feeds ≡ Ok counts.feeds) }
    ensures asks { IfOk result (λ counts. asks ≡ Ok counts.asks) }
    ensures finals { IfOk result (λ counts. finals ≡ Ok counts.finals) }
{
    match (feeds, asks, finals) {
        (Ok(feeds), Ok(asks), Ok(finals)) => Ok(RunCounts {
            feeds,
            asks,
            finals,
        }),
        (_feeds, _asks, _finals) => Err(NoMemory),
    }
}

/// A list with one more item, where there is memory for it.
pub(crate) fn with_one_more<T: Drop>(
    items: Result<Vec<T>, NoMemory>,
    more: T,
) -> Result<Vec<T>, NoMemory>
    ensures { IfOk result (λ all. IsOkAnd items (λ before. all.items ≡ before.items ++ more ∷ [])) }
{
    let mut items = items?;
    items.push(more)?;
    Ok(items)
}
