//! Plans that are printed as they were read.
use cube_schema::{print_plan, read_plan};
use std::alloc::Global;
use std::test::Fail;
use texts::List;

/// Plans, and how many feeds each names. The first is that of the crate's page.
const EXAMPLES: [(&str, usize); 6] = [
    (
        r#"{"asks":[],"batch":1,"categories":[],"depth":3,"feeds":["a.csv"],"finals":[],"journal":"j.txt","start":0,"version":1,"width":10}"#,
        1,
    ),
    (
        r#"{"asks":[],"batch":1,"categories":[{"name":"kind","values":["a","b"]}],"depth":3,"feeds":["a.csv"],"finals":[],"journal":"j.txt","start":0,"version":1,"width":10}"#,
        1,
    ),
    (
        r#"{"asks":["q.txt"],"batch":1,"categories":[{"name":"kind","values":["a","b"]}],"depth":3,"feeds":["a.csv","b.csv"],"finals":["f.txt"],"journal":"j.txt","start":0,"version":1,"width":10}"#,
        2,
    ),
    (
        r#"{"asks":[],"batch":64,"categories":[{"name":"type","values":["THEFT","MOTOR VEHICLE THEFT","BATTERY"]},{"name":"district","values":["001","002"]}],"depth":16,"feeds":["city.csv"],"finals":["f.txt"],"journal":"j.txt","start":1357016400,"version":1,"width":3600}"#,
        1,
    ),
    (
        r#"{"asks":[],"batch":1,"categories":[{"name":"k","values":["a","b"]},{"name":"m","values":["c","d"]}],"depth":1,"feeds":["a.csv"],"finals":["f.txt"],"journal":"j.txt","start":0,"version":1,"width":1}"#,
        1,
    ),
    (
        r#"{"asks":[],"batch":1,"categories":[{"name":"kind","values":["a","b"]}],"depth":3,"feeds":["a.csv"],"finals":["f.txt"],"journal":"j.txt","start":0,"version":2,"weight":"n","width":10}"#,
        1,
    ),
];

/// The text of the plan that the text is, and how many feeds it names.
fn printed_again(alloc: Global, text: &str) -> Result<(List<u8>, usize), Fail> {
    let plan = read_plan(alloc, text.as_bytes())
        .ok()
        .ok_or("it is a plan")?;
    Ok((print_plan(alloc, &plan)?, plan.feeds.len()))
}

#[test]
fn prints_the_examples_as_they_were_read(rt: HostRuntime) -> Result<(), Fail> {
    for (text, feeds) in EXAMPLES {
        let (printed, named) = printed_again(rt.alloc(), text)?;
        assert_eq!(rt; printed.as_slice(), text.as_bytes());
        assert_eq!(rt; named, feeds);
    }
    Ok(())
}
