//! What is answered to a line, by what the mailbox holds and the viewer is shown.
ghost use Rattle.std.specs.Prelude.{◌≡◌, ◌≤◌, true, false, IsTrue, IfSome};
ghost use Rattle.live_session.specs.Bounds.{TakesSteps};
ghost use Rattle.live_session.specs.News.{AsksMail, GoesFor, TakesOne, asks_news, takes_for};
ghost use Rattle.live_session.specs.Saying.{IsServed};
ghost use Rattle.published_pair.specs.Pair.{Fresh};
ghost use Rattle.query_syntax.specs.Meaning.{asks_valid};
ghost use Rattle.session_core.specs.Asked.{asks_look};
ghost use Rattle.world_core.specs.PairFact.{IsPrefix};

use crate::asking::{asks_look, asks_news};
use cube_view::Grow;
use mailbox::MailOut;
use probe_core::Steps;
use published_pair::Viewer;
use query_syntax::Parsed;
use session_core::{Served, serve, serve_unseen};
use std::alloc::Global;
use std::sync::Wait;
use std::sync::ledger::Ledger;
use texts::{List, NoMemory};

/// Takes what the mailbox holds and learns it, where the line asks for a look or the told length.
fn catch_up<V: Grow, R: Wait>(
    rt: &R,
    viewer: Viewer<V>,
    mail: &mut MailOut,
    parsed: &Parsed,
) -> Viewer<V>
    requires { viewer.shown.book ≡ mail.old.pair }
    ensures same { (result.shown ≡ viewer.shown) × (result.schema ≡ viewer.schema) × (result.last ≡ viewer.last) }
    ensures learned { IsPrefix viewer.learned.points result.learned.points }
    ensures unasked { asks_news parsed.now ≡ false → (result.learned ≡ viewer.learned) × (mail.new ≡ mail.old) }
    ensures mail { AsksMail (takes_for parsed.now mail.old.takes) result.learned mail.old mail.new }
    ensures takes { TakesOne viewer.learned mail.old result.learned mail.new }
{
    let mut viewer = viewer;
    if asks_news(parsed) {
        if let Some(told) = mail.take(rt) {
            viewer.learn(told);
        }
    }
    viewer
}

/// Looks once, and gives the answer over the view that is shown.
fn look_once<V: Grow, R: Wait, L: Ledger>(
    rt: &R,
    alloc: Global,
    viewer: Viewer<V>,
    parsed: &Parsed,
    steps: &mut Steps<L>,
    room: &mut List<u8>,
) -> (Viewer<V>, Result<Served, NoMemory>)
    requires valid { IsTrue (asks_valid viewer.schema parsed.now) }
    requires look { asks_look parsed.now ≡ true }
    ensures served { IsServed result.0 parsed.now result.1 }
    ensures fresh { Fresh viewer.shown.points viewer.learned.points result.0.shown.points }
    ensures ended { IfSome viewer.last (λ w. result.0.shown.points ≡ w.points) }
    ensures pair { result.0.shown.book ≡ viewer.shown.book }
    ensures same { (result.0.learned ≡ viewer.learned) × (result.0.last ≡ viewer.last) × (result.0.schema ≡ viewer.schema) }
    ensures steps { TakesSteps V.CubeView result.0.shown_view.value viewer.schema result.0.shown.points parsed.now steps.old steps.new }
{
    let told = viewer.told();
    let shown = viewer.look(rt);
    let served = serve(alloc, shown.view(), told, parsed, steps, room);
    (shown.leave(), served)
}

/// The answer to a line. Where it asks for a look or the told length, what the mailbox holds is learned first, and
/// where it asks for a look the viewer looks once, then.
pub(crate) fn answer_line<V: Grow, R: Wait, L: Ledger>(
    rt: &R,
    alloc: Global,
    viewer: Viewer<V>,
    mail: &mut MailOut,
    parsed: &Parsed,
    steps: &mut Steps<L>,
    room: &mut List<u8>,
) -> (Viewer<V>, Result<Served, NoMemory>)
    requires pair { viewer.shown.book ≡ mail.old.pair }
    requires valid { IsTrue (asks_valid viewer.schema parsed.now) }
    ensures served { IsServed result.0 parsed.now result.1 }
    ensures goes { GoesFor parsed.now viewer.shown viewer.learned viewer.last mail.old result.0.shown result.0.learned mail.new }
    ensures takes { TakesOne viewer.learned mail.old result.0.learned mail.new }
    ensures same { (result.0.last ≡ viewer.last) × (result.0.schema ≡ viewer.schema) }
    ensures steps { TakesSteps V.CubeView result.0.shown_view.value viewer.schema result.0.shown.points parsed.now steps.old steps.new }
{
    let viewer = catch_up(rt, viewer, mail, parsed);
    if asks_look(parsed) {
        return look_once(rt, alloc, viewer, parsed, steps, room);
    }
    let served = serve_unseen(alloc, viewer.told(), parsed, room);
    (viewer, served)
}
