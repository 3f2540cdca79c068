//! Reports of runs that memory, a put or a limit stopped, byte by byte.
use cube_schema::{Plan, PlanFault, read_plan};
use feed_reader::{Column, FeedCounts, HeadFault, Refusal, RowFault};
use outer_io::CutFault;
use run_files::{ScriptCounts, header_refused, plan_refused, report};
use session_core::SessionFault;
use std::alloc::Global;
use std::process::Abort;
use std::test::Fail;
use texts::{List, NoMemory};

/// A plan of two feeds with weights, an ask and a final.
const TWO_FEEDS: &str =
    r#"{"asks":["q.txt"],"batch":1,"categories":[{"name":"kind","values":["a","b"]}],"depth":3,"feeds":["a.csv","b.csv"],"finals":["f.txt"],"journal":"j.txt","start":5,"version":2,"weight":"w","width":10}"#;

fn plan_of(rt: &impl Abort, alloc: Global, text: &str) -> Plan {
    match read_plan(alloc, text.as_bytes()) {
        Ok(plan) => plan,
        Err(_) => panic!(rt; "no plan"),
    }
}

/// Counts of a feed with these refused lines.
fn feed(
    alloc: Global,
    accepted: u64,
    blank: u64,
    first: &[(u64, RowFault)],
    fault: Option<CutFault>,
) -> Result<FeedCounts, NoMemory> {
    let mut refusals = List::new(alloc);
    for (line, fault) in first {
        refusals.add(Refusal {
            line: *line,
            fault: *fault,
        })?;
    }
    Ok(FeedCounts {
        accepted,
        blank,
        refused: refusals.len() as u64,
        fault,
        first: refusals,
    })
}

fn script(replies: u64, seen: u64, fault: Option<SessionFault>) -> ScriptCounts {
    ScriptCounts {
        replies,
        seen,
        fault,
    }
}

#[test]
fn a_report_names_each_fault(rt: HostRuntime) -> Result<(), Fail> {
    let plan = plan_of(&rt, rt.alloc(), TWO_FEEDS);
    let first = [
        (2, RowFault::BadRow),
        (4, RowFault::BadNumber(Column::Y)),
        (5, RowFault::BadTile(Column::Y)),
        (6, RowFault::UnknownValue(0)),
        (7, RowFault::BadNumber(Column::Time)),
        (8, RowFault::BadRow),
    ];
    let second = [
        (2, RowFault::EarlyTime),
        (3, RowFault::LateTime),
        (4, RowFault::LongLine),
        (5, RowFault::BadWeight),
        (6, RowFault::BadNumber(Column::Weight)),
    ];
    let feeds = [
        feed(rt.alloc(), 2, 0, &first, Some(CutFault::Read))?,
        feed(rt.alloc(), 0, 0, &second, Some(CutFault::TooMuch))?,
    ];
    let asks = [script(1, 3, Some(SessionFault::Write))];
    let finals = [script(0, 0, Some(SessionFault::TooMuch))];
    let text = report(rt.alloc(), &plan, &feeds, &asks, &finals, false, 2)?;
    let wanted = "feed a.csv: 2 accepted, 0 blank, 6 refused\n\
        feed a.csv line 2: BadRow\n\
        feed a.csv line 4: BadNumber(y)\n\
        feed a.csv line 5: BadTile(y)\n\
        feed a.csv line 6: UnknownValue(kind)\n\
        feed a.csv line 7: BadNumber(time)\n\
        feed a.csv stopped: Read\n\
        feed b.csv: 0 accepted, 0 blank, 5 refused\n\
        feed b.csv line 2: EarlyTime\n\
        feed b.csv line 3: LateTime\n\
        feed b.csv line 4: LongLine\n\
        feed b.csv line 5: BadWeight\n\
        feed b.csv line 6: BadNumber(w)\n\
        feed b.csv stopped: TooMuch\n\
        script q.txt: 1 replies, seen 3\n\
        script q.txt stopped: Write\n\
        script f.txt: 0 replies, seen 0\n\
        script f.txt stopped: TooMuch\n\
        sessions: not closed\n\
        journal: 2 entries\n";
    assert_eq!(rt; text.as_slice(), wanted.as_bytes());
    Ok(())
}

#[test]
fn a_report_says_where_memory_ran_out_and_reads_failed(rt: HostRuntime) -> Result<(), Fail> {
    let plan = plan_of(&rt, rt.alloc(), TWO_FEEDS);
    let feeds = [
        feed(rt.alloc(), 0, 0, &[], Some(CutFault::NoMemory))?,
        feed(rt.alloc(), 0, 0, &[], None)?,
    ];
    let asks = [script(2, 0, Some(SessionFault::Read))];
    let finals = [script(0, 0, Some(SessionFault::NoMemory))];
    let text = report(rt.alloc(), &plan, &feeds, &asks, &finals, true, 0)?;
    let wanted = "feed a.csv: 0 accepted, 0 blank, 0 refused\n\
        feed a.csv stopped: NoMemory\n\
        feed b.csv: 0 accepted, 0 blank, 0 refused\n\
        script q.txt: 2 replies, seen 0\n\
        script q.txt stopped: Read\n\
        script f.txt: 0 replies, seen 0\n\
        script f.txt stopped: NoMemory\n\
        journal: 0 entries\n";
    assert_eq!(rt; text.as_slice(), wanted.as_bytes());
    Ok(())
}

#[test]
fn a_plan_and_a_header_without_memory_have_a_line(rt: HostRuntime) -> Result<(), Fail> {
    let plan = plan_of(&rt, rt.alloc(), TWO_FEEDS);
    let line = plan_refused(rt.alloc(), &PlanFault::NoMemory)?;
    assert_eq!(rt; line.as_slice(), b"plan: NoMemory\n".as_slice());
    let line = header_refused(rt.alloc(), &plan.schema, "a.csv", HeadFault::NoMemory)?;
    assert_eq!(rt; line.as_slice(), b"feed a.csv: NoMemory\n".as_slice());
    Ok(())
}
