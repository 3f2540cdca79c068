//! The home of a slot: the steps that lead to it along proper links.
ghost use Rattle.std.specs.Prelude.{◌≡◌, ◌↔◌, ◌&&◌, ◌∷◌, not, length, IsTrue, Some, slice_get};
ghost use Rattle.cube_view.specs.Walks.{Finer, IsCoarser};
ghost use Rattle.shape_test.specs.Homes.{is_across, step_of, walk_of};

/// One step: down to the child of a label, or across to the content.
#[derive(Clone, Copy)]
pub enum Move {
    Down(u8),
    Across,
}

/// Whether a step leads to a content.
pub fn leads_across(step: Move) -> bool
    ensures { result ≡ is_across step }
{
    match step {
        Move::Across => true,
        Move::Down(_) => false,
    }
}

/// Whether two steps are one.
pub fn is_same(a: Move, b: Move) -> bool
    ensures { IsTrue result ↔ (a ≡ b) }
{
    match (a, b) {
        (Move::Down(own), Move::Down(other)) => own == other,
        (Move::Across, Move::Across) => true,
        _ => false,
    }
}

/// Whether the first of some steps is this one.
fn begins_with(moves: &[Move], step: Move) -> bool
    ensures { IsTrue result ↔ (slice_get moves.now 0 ≡ Some step) }
{
    match moves {
        [first, ..] => is_same(*first, step),
        [] => false,
    }
}

/// Whether a loose address may lack a step.
pub fn may_go_down(loose: bool, step: Move) -> bool
    ensures { result ≡ (loose && not (is_across step)) }
{
    loose && !leads_across(step)
}

/// Whether as many steps are the same.
fn are_same(a: &[Move], b: &[Move]) -> bool
    requires { length a.now ≡ length b.now }
    ensures { IsTrue result ↔ (a.now ≡ b.now) }
{
    for i in 0..a.len() {
        if !is_same(a[i], b[i]) {
            return false;
        }
    }
    true
}

/// Whether an address is another one's or coarser, the last step of each standing first. A loose address may have
/// fewer labels in its last dimension. A coarser address has no more steps, and with as many it is the same.
pub fn is_coarser(loose: bool, a: &[Move], b: &[Move]) -> bool
    ensures { IsTrue result ↔ Finer loose (walk_of a.now) (walk_of b.now) }
{
    if a.len() > b.len() {
        return false;
    }
    if a.len() == b.len() {
        return are_same(a, b);
    }
    let [last, owner @ ..] = b else {
        return a.is_empty();
    };
    if may_go_down(loose, *last) && is_coarser(true, a, owner) {
        return true;
    }
    if !begins_with(a, *last) {
        return false;
    }
    is_coarser(leads_across(*last), &a[1..], owner)
}

/// Whether an address with one more step is another one's or coarser, the last step of each standing first.
pub fn is_coarser_after(step: Move, a: &[Move], b: &[Move]) -> bool
    ensures { IsTrue result ↔ IsCoarser (step_of step ∷ walk_of a.now) (walk_of b.now) }
{
    let [last, owner @ ..] = b else {
        return false;
    };
    is_same(step, *last) && is_coarser(leads_across(step), a, owner)
}
