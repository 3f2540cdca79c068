//! How a pair is opened.
ghost use Rattle.std.specs.Prelude.{◌≡◌, ◌≤◌, ◌≢◌, ◌<◌, [], ◌∷◌, drop, length, All, Some, IfOk};
ghost use Rattle.cube_view.specs.Bag.{Counts};
ghost use Rattle.left_right.specs.Sides.{view};
ghost use Rattle.published_pair.specs.Rules.{first_word_of};
ghost use Rattle.published_pair.specs.Pair.{names, IsNewViewer};

use crate::book::{Front, open_book};
use crate::looks::Looks;
use crate::publisher::{PairWriter, Publisher, PublisherOf, show};
use crate::rule::Handover;
use crate::stand::Stand;
use crate::viewer::Viewer;
use cube_view::{Grow, Schema};
use ghost_values::{GhostList, GhostValue};
use left_right::writer::Writer;
use std::alloc::Global;
use std::sync::{Arc, Wait};
use texts::{List, NoMemory};

fn make_viewer<V: Grow>(
    alloc: Global,
    writer: &mut PairWriter<V>,
    schema: &Schema,
    front: &Front,
    looks: &Arc<Looks>,
) -> Result<Viewer<V>, NoMemory>
    requires { view writer.old.desk.place ≡ Some (names front.now.book schema.now front.now.points) }
    ensures writer { (writer.new.desk.shown ≡ writer.old.desk.shown) × (writer.new.log ≡ writer.old.log) × (writer.new.behind ≡ writer.old.behind) }
    ensures named { view writer.new.desk.place ≡ view writer.old.desk.place }
    ensures viewer { IfOk result (λ v. IsNewViewer schema.now front.now v.schema v.shown v.learned v.last) }
{
    let schema = schema.copy(alloc)?;
    let looks = Arc::try_clone(looks)?;
    let mut reader = writer.factory().reader()?;
    reader.learn::<Handover>(writer.tell::<Handover>());
    Ok(Viewer {
        reader,
        schema,
        shown: front.again(),
        shown_view: GhostValue::of(&writer.published().view),
        learned: front.again(),
        last: None,
        looks,
    })
}

fn make_viewers<V: Grow>(
    alloc: Global,
    writer: &mut PairWriter<V>,
    schema: &Schema,
    front: &Front,
    looks: &Arc<Looks>,
    viewers: u32,
) -> Result<List<Viewer<V>>, NoMemory>
    requires { view writer.old.desk.place ≡ Some (names front.now.book schema.now front.now.points) }
    ensures writer { (writer.new.desk.shown ≡ writer.old.desk.shown) × (writer.new.log ≡ writer.old.log) × (writer.new.behind ≡ writer.old.behind) }
    ensures named { view writer.new.desk.place ≡ view writer.old.desk.place }
    ensures viewers { IfOk result (λ vs. (length vs ≡ viewers) × All (λ v. IsNewViewer schema.now front.now v.schema v.shown v.learned v.last) vs) }
{
    let mut all = List::new(alloc);
    for _ in 0..viewers {
        let viewer = make_viewer(alloc, writer, schema, front, looks)?;
        all.add(viewer)?;
    }
    Ok(all)
}

fn make_stand<V: Grow>(view: V, front: &Front) -> Stand<V>
    requires { Counts (V.weight_at view) (V.seen view) [] }
    ensures { (result.view ≡ view) × (result.front ≡ front.now) × (result.history.items ≡ []) }
{
    Stand {
        view,
        history: GhostList::new(),
        front: front.again(),
    }
}

/// A pair of two copies that count nothing, with so many viewers. Nothing is published, and no viewer was shown or told
/// of anything.
pub fn open<V: Grow, R: Wait>(
    rt: &R,
    alloc: Global,
    first: V,
    again: V,
    viewers: u32,
) -> Result<(Publisher<V>, List<Viewer<V>>), NoMemory>
    requires first { Counts (V.weight_at first) (V.seen first) [] }
    requires again { Counts (V.weight_at again) (V.seen again) [] }
    requires schema { V.schema again ≡ V.schema first }
    requires few { viewers ≤ 16 }
    ensures publisher { IfOk result (λ t. (t.0.published.points ≡ []) × (t.0.appended.items ≡ []) × (t.0.schema ≡ V.schema first) × (t.0.viewers ≡ viewers)) }
    ensures viewers { IfOk result (λ t. (length t.1 ≡ viewers) × All (λ v. IsNewViewer (V.schema first) t.0.published v.schema v.shown v.learned v.last) t.1) }
{
    let looks = Looks::open(alloc)?;
    let schema = first.schema().copy(alloc)?;
    let (head, front) = open_book();
    let first = make_stand(first, &front);
    let again = make_stand(again, &front);
    let writer = Writer::new(alloc, first, again, viewers.max(1) as usize)?;
    let (mut writer, outcome) = show(rt, writer, &schema, &front, &front);
    if outcome.is_err() {
        writer.take(rt);
        return Err(NoMemory);
    }
    match make_viewers(alloc, &mut writer, &schema, &front, &looks, viewers) {
        Ok(all) => {
            let publisher = PublisherOf {
                writer,
                head,
                schema,
                published: front.again(),
                noted: front,
                since: List::new(alloc),
                alloc,
                appended: GhostList::new(),
                viewers,
                looks,
            };
            Ok((publisher, all))
        }
        Err(NoMemory) => {
            writer.take(rt);
            Err(NoMemory)
        }
    }
}
