//! The scripts of a run: all are opened, and then the files for their replies are created, and last the journal.
ghost use Rattle.std.specs.Prelude.{◌≡◌, ◌≢◌, ◌≤◌, Err, ℕ, List, [], ◌∷◌, ◌++◌, All, IfOk, IsSome, OnOk, Some, codes, map, length, vec_len, vec_capacity};
ghost use Rattle.std.specs.Result.{result_err};
ghost use Rattle.cube_schema.specs.Files.{output_names};
ghost use Rattle.cube_schema.specs.Repeats.{outputs};
ghost use Rattle.std.specs.List.{AllZip};
ghost use Rattle.outer_io.specs.Files.{HasFile};
ghost use Rattle.run_files.specs.Outside.{file_of, of_place, of_sink};
ghost use Rattle.run_files.specs.Scripted.{AreScriptParts, AreScripts, IsOutput, IsScript, OpensScripts};

use crate::giving_back::{give_back_cutters, give_back_sinks};
use crate::{Stop, ended_after};
use cube_schema::Plan;
use outer_io::{IoFault, LineCutter, Place};
use std::alloc::Global;
use texts::{List, NoMemory, Text};

/// The scripts of a run, cut into lines, and the sinks for their replies and for the journal.
pub struct ScriptParts<C, O> {
    pub asks: List<C>,
    pub finals: List<C>,
    pub ask_outputs: List<O>,
    pub final_outputs: List<O>,
    pub journal: O,
}

// The script of that name, cut into lines, or how the run ends, its source given back.
fn open_script<P: Place>(
    alloc: Global,
    name: &str,
    place: &mut P,
) -> Result<LineCutter<P::In>, Stop>
    ensures opens { OpensScripts (of_place P.Place) place.old place.new (name.now ∷ []) [] (result_err result) }
    ensures script { IfOk result (IsScript P.In.left P.In.faults (file_of (P.files place.old) name.now)) }
{
    match place.open(name) {
        Ok(source) => match LineCutter::new(alloc, source) {
            Ok(cutter) => Ok(cutter),
            Err(source) => {
                place.give_back_in(source);
                Err(Stop::NoMemory)
            }
        },
        Err(IoFault::Failed) => Err(Stop::ReadFault),
        Err(IoFault::NoMemory) => Err(Stop::NoMemory),
    }
}

// Opens the scripts of those names into a list that has room for them.
fn open_each<P: Place>(
    alloc: Global,
    names: &[Text],
    place: &mut P,
    scripts: &mut Vec<LineCutter<P::In>>,
) -> Result<(), Stop>
    requires empty { (scripts.old.items ≡ []) × (vec_len scripts.old ≡ 0) }
    requires room { length names.now ≤ vec_capacity scripts.old }
    ensures opens { OpensScripts (of_place P.Place) place.old place.new names.now [] (result_err result) }
    ensures scripts { OnOk result (AreScripts P.In.left P.In.faults (P.files place.old) names.now scripts.new.items) }
    ensures quiet { All (λ script. P.In.faults script.source ≡ 0) scripts.new.items }
{
    for name in names {
        let script = open_script(alloc, name.as_str(), place)?;
        scripts.push_reserved(script);
    }
    Ok(())
}

/// The sink of that name, created, or how the run ends.
pub fn create_file<P: Place>(name: &str, place: &mut P) -> Result<P::Out, Stop>
    ensures opens { OpensScripts (of_place P.Place) place.old place.new [] (name.now ∷ []) (result_err result) }
    ensures no_read { result ≢ Err Stop.ReadFault }
    ensures output { IfOk result (IsOutput (of_sink P.Out.Sink) (P.files place.old) name.now) }
{
    match place.create(name) {
        Ok(sink) => Ok(sink),
        Err(IoFault::Failed) => Err(Stop::WriteFault),
        Err(IoFault::NoMemory) => Err(Stop::NoMemory),
    }
}

// The name of the file for the replies to the script of that name.
fn output_name(alloc: Global, name: &str) -> Result<Text, NoMemory>
    ensures { IfOk result (λ text. text ≡ name.now ++ codes ".out") }
{
    let text = format!(in alloc; "{name}.out")?;
    Ok(Text::from_string(text))
}

// The sink for the replies to the script of that name, created, or how the run ends.
fn create_output<P: Place>(alloc: Global, script: &str, place: &mut P) -> Result<P::Out, Stop>
    ensures opens { OpensScripts (of_place P.Place) place.old place.new [] (outputs (script.now ∷ [])) (result_err result) }
    ensures no_read { result ≢ Err Stop.ReadFault }
    ensures output { IfOk result (IsOutput (of_sink P.Out.Sink) (P.files place.old) (script.now ++ codes ".out")) }
{
    match output_name(alloc, script) {
        Ok(name) => create_file(name.as_str(), place),
        Err(NoMemory) => Err(Stop::NoMemory),
    }
}

// Creates the files for the replies to the scripts of those names, into a list that has room for them.
fn create_each<P: Place>(
    alloc: Global,
    scripts: &[Text],
    place: &mut P,
    sinks: &mut Vec<P::Out>,
) -> Result<(), Stop>
    requires empty { (sinks.old.items ≡ []) × (vec_len sinks.old ≡ 0) }
    requires room { length scripts.now ≤ vec_capacity sinks.old }
    ensures opens { OpensScripts (of_place P.Place) place.old place.new [] (outputs scripts.now) (result_err result) }
    ensures no_read { result ≢ Err Stop.ReadFault }
    ensures hold_nothing { IsSome (P.files place.old) → All (λ sink. P.Out.held sink ≡ Some []) sinks.new.items }
    ensures names { (rest : List (List ℕ)) × (P.created place.new ≡ P.created place.old ++ (map P.Out.name sinks.new.items ++ rest)) }
    ensures quiet { All (λ sink. P.Out.faults sink ≡ 0) sinks.new.items }
    ensures outputs { OnOk result (AllZip (IsOutput (of_sink P.Out.Sink) (P.files place.old)) (outputs scripts.now) sinks.new.items) }
{
    for script in scripts {
        let sink = create_output(alloc, script.as_str(), place)?;
        sinks.push_reserved(sink);
    }
    Ok(())
}

// The scripts of those names, opened in order and cut into lines; or how the run ends, by the first trouble, with all
// that was opened given back.
fn open_list<P: Place>(
    alloc: Global,
    names: &[Text],
    place: &mut P,
) -> Result<List<LineCutter<P::In>>, Stop>
    ensures opens { OpensScripts (of_place P.Place) place.old place.new names.now [] (result_err result) }
    ensures scripts { IfOk result (AreScripts P.In.left P.In.faults (P.files place.old) names.now) }
    ensures quiet { IfOk result (All (λ script. P.In.faults script.source ≡ 0)) }
{
    let Ok(mut scripts) = Vec::with_capacity(alloc, names.len()) else {
        return Err(Stop::NoMemory);
    };
    match open_each(alloc, names, place, &mut scripts) {
        Ok(()) => Ok(List::from_vec(scripts)),
        Err(stop) => {
            give_back_cutters(place, scripts);
            Err(stop)
        }
    }
}

// The sinks for the replies to the scripts of those names, created in order; or how the run ends, by the first trouble
// or by one of giving back what was created.
fn create_list<P: Place>(
    alloc: Global,
    scripts: &[Text],
    place: &mut P,
) -> Result<List<P::Out>, Stop>
    ensures opens { OpensScripts (of_place P.Place) place.old place.new [] (outputs scripts.now) (result_err result) }
    ensures no_read { result ≢ Err Stop.ReadFault }
    ensures outputs { IfOk result (AllZip (IsOutput (of_sink P.Out.Sink) (P.files place.old)) (outputs scripts.now)) }
    ensures quiet { IfOk result (All (λ sink. P.Out.faults sink ≡ 0)) }
{
    let Ok(mut sinks) = Vec::with_capacity(alloc, scripts.len()) else {
        return Err(Stop::NoMemory);
    };
    match create_each(alloc, scripts, place, &mut sinks) {
        Ok(()) => Ok(List::from_vec(sinks)),
        Err(stop) => {
            let given = give_back_sinks(place, sinks);
            Err(ended_after(stop, given))
        }
    }
}

// The scripts of the asks and of the finals, opened in order, or how the run ends, with all that was opened given back.
fn open_all<P: Place>(
    alloc: Global,
    plan: &Plan,
    place: &mut P,
) -> Result<(List<LineCutter<P::In>>, List<LineCutter<P::In>>), Stop>
    ensures opens { OpensScripts (of_place P.Place) place.old place.new (plan.now.asks ++ plan.now.finals) [] (result_err result) }
    ensures asks { IfOk result (λ lists. AreScripts P.In.left P.In.faults (P.files place.old) plan.now.asks lists.0) }
    ensures finals { IfOk result (λ lists. AreScripts P.In.left P.In.faults (P.files place.old) plan.now.finals lists.1) }
    ensures quiet { IfOk result (λ lists. All (λ script. P.In.faults script.source ≡ 0) lists.0 × All (λ script. P.In.faults script.source ≡ 0) lists.1) }
{
    let asks = open_list(alloc, plan.asks.as_slice(), place)?;
    match open_list(alloc, plan.finals.as_slice(), place) {
        Ok(finals) => Ok((asks, finals)),
        Err(stop) => {
            give_back_cutters(place, asks.into_vec());
            Err(stop)
        }
    }
}

// The sinks for the replies to asks and finals, created in order, or how the run ends, with all that was created given
// back.
fn create_replies<P: Place>(
    alloc: Global,
    plan: &Plan,
    place: &mut P,
) -> Result<(List<P::Out>, List<P::Out>), Stop>
    ensures opens { OpensScripts (of_place P.Place) place.old place.new [] (outputs plan.now.asks ++ outputs plan.now.finals) (result_err result) }
    ensures no_read { result ≢ Err Stop.ReadFault }
    ensures asks { IfOk result (λ lists. AllZip (IsOutput (of_sink P.Out.Sink) (P.files place.old)) (outputs plan.now.asks) lists.0) }
    ensures finals { IfOk result (λ lists. AllZip (IsOutput (of_sink P.Out.Sink) (P.files place.old)) (outputs plan.now.finals) lists.1) }
{
    let asks = create_list(alloc, plan.asks.as_slice(), place)?;
    match create_list(alloc, plan.finals.as_slice(), place) {
        Ok(finals) => Ok((asks, finals)),
        Err(stop) => {
            let given = give_back_sinks(place, asks.into_vec());
            Err(ended_after(stop, given))
        }
    }
}

// Those sinks and the journal's, created last, or how the run ends, with all that was created given back.
fn create_all<P: Place>(
    alloc: Global,
    plan: &Plan,
    place: &mut P,
) -> Result<(List<P::Out>, List<P::Out>, P::Out), Stop>
    ensures opens { OpensScripts (of_place P.Place) place.old place.new [] (output_names plan.now) (result_err result) }
    ensures no_read { result ≢ Err Stop.ReadFault }
    ensures asks { IfOk result (λ made. AllZip (IsOutput (of_sink P.Out.Sink) (P.files place.old)) (outputs plan.now.asks) made.0) }
    ensures finals { IfOk result (λ made. AllZip (IsOutput (of_sink P.Out.Sink) (P.files place.old)) (outputs plan.now.finals) made.1) }
    ensures journal { IfOk result (λ made. IsOutput (of_sink P.Out.Sink) (P.files place.old) plan.now.journal made.2) }
{
    let (asks, finals) = create_replies(alloc, plan, place)?;
    match create_file(plan.journal.as_str(), place) {
        Ok(journal) => Ok((asks, finals, journal)),
        Err(stop) => {
            let given = give_back_sinks(place, asks.into_vec());
            let end = ended_after(stop, given);
            let given = give_back_sinks(place, finals.into_vec());
            Err(ended_after(end, given))
        }
    }
}

/// The scripts of a plan, all asks and then all finals opened, and then the files for their replies created in that
/// order, and last the journal; or how the run ends, by the first trouble, with all of these given back.
pub fn open_scripts<P: Place>(
    alloc: Global,
    plan: &Plan,
    place: &mut P,
) -> Result<ScriptParts<LineCutter<P::In>, P::Out>, Stop>
    ensures opens { OpensScripts (of_place P.Place) place.old place.new (plan.now.asks ++ plan.now.finals) (output_names plan.now) (result_err result) }
    ensures parts { IfOk result (AreScriptParts P.In.left P.In.faults (of_sink P.Out.Sink) (P.files place.old) plan.now) }
{
    let (asks, finals) = open_all(alloc, plan, place)?;
    match create_all(alloc, plan, place) {
        Ok((ask_outputs, final_outputs, journal)) => Ok(ScriptParts {
            asks,
            finals,
            ask_outputs,
            final_outputs,
            journal,
        }),
        Err(stop) => {
            give_back_cutters(place, asks.into_vec());
            give_back_cutters(place, finals.into_vec());
            Err(stop)
        }
    }
}
