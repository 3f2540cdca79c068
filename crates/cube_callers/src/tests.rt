//! How many steps a count takes in a cube: a number of its values and bins, however many records it has.
ghost use Rattle.std.specs.Prelude.{◌≡◌, ℕ, ◌+◌, ◌*◌, ◌^◌, ◌<◌, ◌≤◌, ◌∷◌, [], IfOk, true, false, slice_set, replicate};
ghost use Rattle.cube_view.specs.Bag.{Counts};
ghost use Rattle.example_schemas.specs.Examples.{kinds};
ghost use Rattle.probe_core.specs.Bits.{bits};
ghost use Rattle.probe_core.specs.Blanks.{IsBlankOf};
ghost use Rattle.cube_callers.specs.Records.{HasBinsUnder, IsFew, count_of_a};

use cube_store::{Cube, cost_laws};
use cube_view::{CubeView, Grow, Point, Tile, is_sound};
use example_schemas::{point, schema_of_kinds};
use probe_core::Steps;
use query_syntax::{Choice, Query, Span, Verb};
use query_walk::total;
use std::alloc::Global;
use std::marker::Brand;
use std::process::Abort;
use std::sync::ledger::{Blank, Ledger};
use std::test::Fail;
use texts::NoMemory;

/// The record that a number draws, whose bin is under `spread`. If that is 1 there is one such record.
fn record_of(drawn: u32, spread: u32) -> Point
    requires { 0 < spread }
    ensures { IsFew spread result }
{
    let high = drawn >> 12;
    let x = high % spread % 8;
    let y = (high >> 3) % spread % 8;
    let value = ((high >> 6) % spread % 2) as u8;
    point(x, y, value, high % spread)
}

/// A cube of n drawn records, whose bins are under `spread`.
fn cube_of_records(rt: &impl Abort, alloc: Global, n: u32, spread: u32) -> Result<Cube, NoMemory>
    requires { 0 < spread }
    ensures schema { IfOk result (λ cube. cube.schema ≡ kinds) }
    ensures bins { IfOk result (λ cube. ∥ HasBinsUnder spread (⟦<Cube as CubeView>⟧.weight_at cube) (⟦<Cube as CubeView>⟧.seen cube) ∥₁) }
{
    let mut cube = Cube::new(alloc, schema_of_kinds(alloc)?)?;
    let mut drawn = 1u32;
    for _ in 0..n {
        drawn = drawn.wrapping_mul(1664525).wrapping_add(1013904223);
        let record = record_of(drawn, spread);
        assert!(rt; is_sound(cube.schema(), &record));
        assert!(rt; cube.seen() < 1 << 35);
        Grow::insert(&mut cube, record)?;
    }
    Ok(cube)
}

/// The count of the records of value a.
fn count_of_value_a() -> Query
    ensures { result ≡ count_of_a }
{
    let mut query = Query {
        verb: Verb::Count,
        region: Tile { z: 0, x: 0, y: 0 },
        sets: [Choice::All; 4],
        time: Span {
            from: 0,
            to: 1 << 32,
        },
    };
    query.set_one_value(0, 0);
    query
}

/// The count over n records whose bins are under `spread`: across from space, down to the value, across from the
/// category, and two searches of a table of at most `spread` rows.
fn count_over<L: Ledger>(
    rt: &impl Abort,
    alloc: Global,
    n: u32,
    spread: u32,
    steps: &mut Steps<L>,
) -> Result<u64, NoMemory>
    requires { 0 < spread }
    ensures { steps.new ≤ steps.old + (9 + 2 * bits spread) }
{
    cost_laws();
    let cube = cube_of_records(rt, alloc, n, spread)?;
    Ok(total(&cube, &count_of_value_a(), steps))
}

/// The bins of random records are under 1,024, which has 11 binary digits.
fn count_of_random_records<L: Ledger>(
    rt: &impl Abort,
    alloc: Global,
    steps: &mut Steps<L>,
) -> Result<u64, NoMemory>
    ensures { steps.new ≤ steps.old + 31 }
{
    count_over(rt, alloc, 100_000, 1024, steps)
}

/// Equal records have one bin, however many they are.
fn count_of_equal_records<L: Ledger>(
    rt: &impl Abort,
    alloc: Global,
    n: u32,
    steps: &mut Steps<L>,
) -> Result<u64, NoMemory>
    ensures { steps.new ≤ steps.old + 11 }
{
    count_over(rt, alloc, n, 1, steps)
}

fn few_steps<L: Ledger>(rt: &impl Abort, alloc: Global, blank: Blank) -> Result<(), NoMemory>
    requires { IsBlankOf L.name L.parts blank }
{
    let mut steps = Steps::<L>::new(blank);
    let random = count_of_random_records(rt, alloc, &mut steps)?;
    assert!(rt; 40_000 < random && random < 60_000);
    assert_eq!(rt; count_of_equal_records(rt, alloc, 1, &mut steps)?, 1);
    assert_eq!(rt;
        count_of_equal_records(rt, alloc, 1_000_000, &mut steps)?,
        1_000_000
    );
    Ok(())
}

#[test]
fn a_count_takes_steps_by_its_bins_and_not_by_its_records(rt: HostRuntime) -> Result<(), Fail> {
    few_steps::<Brand>(&rt, rt.alloc(), Blank::new(1))?;
    Ok(())
}
