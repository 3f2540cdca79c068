//! A slot as an arena stores it.
ghost use Rattle.std.specs.Prelude.{◌≡◌, ◌+◌, ◌≤◌, ◌<◌, ◌^◌, length, None, Some, IfOk, OnOk, OnErr, is_some, IsSome, IsTrue};
ghost use Rattle.std.specs.FinMap.{contains_key};
ghost use Rattle.probe_core.specs.Bits.{bits};
ghost use Rattle.time_table.specs.Counts.{AllCounted, IsBinRun, run_total, total_count};
ghost use Rattle.cube_view.specs.Walks.{down, across};
ghost use Rattle.node_arena.specs.Slots.{IsNode, IsTable, is_table, count, IsRising, children_of, counts_of, link as link_at};
ghost use Rattle.node_arena.specs.Calls.{put, relink, unlink, with_content, with_many, with_run, without_many, copied, child_from, only_link};
ghost use Rattle.node_arena.specs.Stats.{content_that, is_proper, is_shared, capped, with_slot};
ghost use Rattle.node_arena.specs.Stored.{slot_from};

use crate::children::Children;
use crate::link::Link;
use crate::packed::Content;
use cube_view::Stat;
use probe_core::Steps;
use std::alloc::Global;
use std::sync::ledger::Ledger;
use texts::NoMemory;
use time_table::TimeTable;

/// A node has children and perhaps a content, a time table its counts. Up to three children, and up to three
/// rows of a table whose totals have 32 bits, take no memory besides the slot's.
#[derive(Drop)]
pub enum Stored {
    Node(Children, Content),
    Table(TimeTable),
}

// There are hundreds of thousands of slots, and most of a cube's memory is theirs.
const _: () = prove!(size_of::<Stored>() == 40);

impl Stored {
    /// A shallow copy: all links of the copy are shared.
    pub fn copied(&self, alloc: Global) -> Result<Stored, NoMemory>
        ensures { IfOk result (λ copy. slot_from copy ≡ copied (slot_from self.now)) }
    {
        match self {
            Stored::Node(children, content) => {
                let content = match content.link() {
                    Some(link) => Some(link.shared()),
                    None => None,
                };
                Ok(Stored::Node(children.shared(alloc)?, Content::new(content)))
            }
            Stored::Table(counts) => Ok(Stored::Table(counts.copy(alloc)?)),
        }
    }

    /// A child of a new label.
    pub fn put_child(&mut self, label: u8, link: Link) -> Result<(), NoMemory>
        requires is_node { IsNode (slot_from self.old) }
        requires is_new { link_at (slot_from self.old) (down label) ≡ None }
        ensures put { OnOk result (slot_from self.new ≡ put (slot_from self.old) label link) }
        ensures unchanged { OnErr result (slot_from self.new ≡ slot_from self.old) }
    {
        match self {
            Stored::Node(children, _) => children.put(label, link),
            Stored::Table(_) => unreachable!(),
        }
    }

    /// Another link to a child.
    pub fn set_child(&mut self, label: u8, link: Link) -> Link
        requires is_node { IsNode (slot_from self.old) }
        requires is_there { IsSome (link_at (slot_from self.old) (down label)) }
        ensures given { link_at (slot_from self.old) (down label) ≡ Some result }
        ensures set { slot_from self.new ≡ relink (slot_from self.old) label link }
    {
        match self {
            Stored::Node(children, _) => children.replace(label, link),
            Stored::Table(_) => unreachable!(),
        }
    }

    /// A child less.
    pub fn drop_child(&mut self, label: u8) -> Link
        requires is_node { IsNode (slot_from self.old) }
        requires is_there { IsSome (link_at (slot_from self.old) (down label)) }
        ensures given { link_at (slot_from self.old) (down label) ≡ Some result }
        ensures dropped { slot_from self.new ≡ unlink (slot_from self.old) label }
    {
        match self {
            Stored::Node(children, _) => children.remove(label),
            Stored::Table(_) => unreachable!(),
        }
    }

    /// Another content, or none.
    pub fn set_content(&mut self, link: Option<Link>) -> Option<Link>
        requires is_node { IsNode (slot_from self.old) }
        ensures given { result ≡ link_at (slot_from self.old) across }
        ensures set { slot_from self.new ≡ with_content (slot_from self.old) link }
    {
        match self {
            Stored::Node(_, content) => {
                let old = content.link();
                *content = Content::new(link);
                old
            }
            Stored::Table(_) => unreachable!(),
        }
    }

    /// Some records more in a bin.
    pub fn add_many(&mut self, bin: u32, amount: u64) -> Result<(), NoMemory>
        requires is_table { IsTable (slot_from self.old) }
        requires some { 0 < amount }
        requires fits { total_count (counts_of (slot_from self.old)) + amount ≤ 2 ^ 63 }
        ensures added { OnOk result (slot_from self.new ≡ with_many (slot_from self.old) bin amount) }
        ensures unchanged { OnErr result (slot_from self.new ≡ slot_from self.old) }
        ensures was_counted { AllCounted (counts_of (slot_from self.old)) }
    {
        match self {
            Stored::Table(counts) => counts.add_many(bin, amount),
            Stored::Node(_, _) => unreachable!(),
        }
    }

    /// Amounts more, each in its bin.
    pub fn add_run(&mut self, run: &[(u32, u64)]) -> Result<(), NoMemory>
        requires is_table { IsTable (slot_from self.old) }
        requires run { IsBinRun run.now }
        requires fits { total_count (counts_of (slot_from self.old)) + run_total run.now ≤ 2 ^ 63 }
        ensures added { OnOk result (slot_from self.new ≡ with_run (slot_from self.old) run.now) }
        ensures unchanged { OnErr result (slot_from self.new ≡ slot_from self.old) }
        ensures was_counted { AllCounted (counts_of (slot_from self.old)) }
    {
        match self {
            Stored::Table(counts) => counts.add_run(run),
            Stored::Node(_, _) => unreachable!(),
        }
    }

    /// Some records less in a bin that has as many.
    pub fn take_many(&mut self, bin: u32, amount: u64)
        requires is_table { IsTable (slot_from self.old) }
        requires some { 0 < amount }
        requires is_there { amount ≤ count (slot_from self.old) bin }
        ensures { slot_from self.new ≡ without_many (slot_from self.old) bin amount }
    {
        match self {
            Stored::Table(counts) => counts.take_many(bin, amount),
            Stored::Node(_, _) => unreachable!(),
        }
    }

    /// A record less in a bin that has one.
    pub fn take_one(&mut self, bin: u32)
        requires is_table { IsTable (slot_from self.old) }
        requires is_there { IsTrue (contains_key (counts_of (slot_from self.old)) bin) }
        ensures { slot_from self.new ≡ without_many (slot_from self.old) bin 1 }
    {
        match self {
            Stored::Table(counts) => counts.take(bin),
            Stored::Node(_, _) => unreachable!(),
        }
    }

    /// Whether it is a time table.
    pub fn is_table(&self) -> bool
        ensures { result ≡ is_table (slot_from self.now) }
    {
        match self {
            Stored::Table(_) => true,
            Stored::Node(_, _) => false,
        }
    }

    /// Whether it has a content.
    pub fn has_content(&self) -> bool
        ensures { result ≡ is_some (link_at (slot_from self.now) across) }
    {
        match self {
            Stored::Node(_, content) => content.is_some(),
            Stored::Table(_) => false,
        }
    }

    /// The link of the child at a label.
    pub fn child<L: Ledger>(&self, label: u8, steps: &mut Steps<L>) -> Option<Link>
        requires { IsNode (slot_from self.now) }
        ensures link { result ≡ link_at (slot_from self.now) (down label) }
        ensures cost { steps.new ≤ steps.old + bits (length (children_of (slot_from self.now))) }
        ensures not_less { steps.old ≤ steps.new }
        ensures in_order { IsRising (children_of (slot_from self.now)) }
    {
        match self {
            Stored::Node(children, _) => children.child(label, steps),
            Stored::Table(_) => unreachable!(),
        }
    }

    /// The first child whose label is `from` or later.
    pub fn next_child<L: Ledger>(&self, from: u8, steps: &mut Steps<L>) -> Option<(u8, Link)>
        requires { IsNode (slot_from self.now) }
        ensures child { result ≡ child_from (children_of (slot_from self.now)) from }
        ensures cost { steps.new ≤ steps.old + bits (length (children_of (slot_from self.now))) }
        ensures not_less { steps.old ≤ steps.new }
        ensures in_order { IsRising (children_of (slot_from self.now)) }
    {
        match self {
            Stored::Node(children, _) => children.child_from(from, steps),
            Stored::Table(_) => unreachable!(),
        }
    }

    /// The content.
    pub fn content(&self) -> Option<Link>
        requires { IsNode (slot_from self.now) }
        ensures { result ≡ link_at (slot_from self.now) across }
    {
        match self {
            Stored::Node(_, content) => content.link(),
            Stored::Table(_) => unreachable!(),
        }
    }

    /// The counts.
    pub fn table(&self) -> &TimeTable
        requires { IsTable (slot_from self.now) }
        ensures counts { result.now ≡ counts_of (slot_from self.now) }
    {
        match self {
            Stored::Table(counts) => counts,
            Stored::Node(_, _) => unreachable!(),
        }
    }

    /// The link of the only child, where there is exactly one.
    pub fn only_child(&self) -> Option<Link>
        requires { IsNode (slot_from self.now) }
        ensures link { result ≡ only_link (children_of (slot_from self.now)) }
        ensures in_order { IsRising (children_of (slot_from self.now)) }
    {
        match self {
            Stored::Node(children, _) => children.only(),
            Stored::Table(_) => unreachable!(),
        }
    }

    /// The numbers of nodes, time tables and links with those of this slot.
    pub fn counted_with(&self, stat: Stat) -> Stat
        ensures numbers { result ≡ with_slot stat (slot_from self.now) }
        ensures in_order { IsRising (children_of (slot_from self.now)) }
    {
        match self {
            Stored::Node(children, content) => {
                let (proper, shared) = children.link_counts();
                let (more_proper, more_shared) = content_counts(content.link());
                Stat {
                    nodes: stat.nodes.saturating_add(1),
                    tables: stat.tables,
                    proper: add_capped(stat.proper, proper as u64, more_proper),
                    shared: add_capped(stat.shared, shared as u64, more_shared),
                }
            }
            Stored::Table(_) => Stat {
                tables: stat.tables.saturating_add(1),
                ..stat
            },
        }
    }
}

/// How many of the links to a content are proper, and how many are shared.
fn content_counts(content: Option<Link>) -> (u64, u64)
    ensures proper { result.0 ≡ content_that is_proper content }
    ensures shared { result.1 ≡ content_that is_shared content }
{
    match content {
        Some(link) if link.is_proper() => (1, 0),
        Some(_) => (0, 1),
        None => (0, 0),
    }
}

/// A sum of three counts, as far as 64 bits count.
fn add_capped(a: u64, b: u64, c: u64) -> u64
    ensures { result ≡ capped (a + (b + c)) }
{
    a.saturating_add(b).saturating_add(c)
}
