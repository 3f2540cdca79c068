//! A file read whole, and a run's plan.
ghost use Rattle.std.specs.Prelude.{◌≡◌, ◌≢◌, ◌⊎◌, ◌+◌, [], ◌∷◌, ◌++◌, Err, Some, take, IfOk, IfErr};
ghost use Rattle.std.specs.Result.{result_err};
ghost use Rattle.outer_io.specs.Told.{Told};
ghost use Rattle.run_files.specs.Lines.{plan_line};
ghost use Rattle.run_files.specs.Leaving.{LeavesPlace};
ghost use Rattle.run_files.specs.Outside.{file_of, of_place, of_sink, PutsOrFails, Silent};
ghost use Rattle.run_files.specs.Planned.{ReadsPlan};

use crate::stop::read_end;
use crate::{Stop, plan_refused};
use cube_schema::{Plan, PlanFault, read_plan};
use outer_io::{IoFault, Place, Sink, read_up_to};
use std::alloc::Global;
use texts::{List, NoMemory};

/// The most bytes of a plan.
const LONGEST_PLAN: usize = 1_048_576;

/// Opens the named file, reads its bytes, or the first `most + 1` of them where there are more, and gives its source
/// back.
pub fn read_file<P: Place>(
    alloc: Global,
    name: &str,
    most: usize,
    place: &mut P,
) -> Result<List<u8>, Stop>
    ensures leaves { LeavesPlace (of_place P.Place) place.old place.new (name.now ∷ []) [] (result_err result) }
    ensures read { result ≡ Err Stop.ReadFault → P.opened place.new ≡ P.opened place.old ++ name.now ∷ [] }
    ensures bytes { IfOk result (λ bytes. Told (file_of (P.files place.old) name.now) (λ all. bytes ≡ take (most + 1) all)) }
    ensures ends { IfErr result (λ end. (end ≢ Stop.PlanRefused) × (end ≢ Stop.WriteFault) × (end ≢ Stop.FeedRefused)) }
{
    match place.open(name) {
        Ok(mut source) => {
            let read = read_up_to(alloc, &mut source, most);
            place.give_back_in(source);
            read_end(read)
        }
        Err(IoFault::Failed) => Err(Stop::ReadFault),
        Err(IoFault::NoMemory) => Err(Stop::NoMemory),
    }
}

// Puts the line of a plan that is refused, and says how the run ends.
fn refuse_plan<O: Sink>(alloc: Global, fault: &PlanFault, out: &mut O) -> Stop
    ensures refused { result ≡ Stop.PlanRefused → PutsOrFails (of_sink O.Sink) out.old out.new (plan_line fault.now) }
    ensures silent { result ≡ Stop.NoMemory → Silent (of_sink O.Sink) out.old out.new }
    ensures ends { (result ≡ Stop.PlanRefused) ⊎ (result ≡ Stop.NoMemory) }
{
    let Ok(line) = plan_refused(alloc, fault) else {
        return Stop::NoMemory;
    };
    match out.put(line.as_slice()) {
        Ok(()) | Err(IoFault::Failed) => Stop::PlanRefused,
        Err(IoFault::NoMemory) => Stop::NoMemory,
    }
}

// The plan that the bytes are, or how the run ends.
fn plan_of<O: Sink>(alloc: Global, bytes: &[u8], out: &mut O) -> Result<Plan, Stop>
    ensures plan { ReadsPlan (of_sink O.Sink) out.old out.new (Some bytes.now) result }
    ensures no_read { result ≢ Err Stop.ReadFault }
{
    match read_plan(alloc, bytes) {
        Ok(plan) => Ok(plan),
        Err(PlanFault::NoMemory) => Err(Stop::NoMemory),
        Err(fault) => Err(refuse_plan(alloc, &fault, out)),
    }
}

/// The plan that the named file is, or how the run ends. Of a file that is none one line is put, `plan: FAULT`.
pub fn load_plan<P: Place, O: Sink>(
    alloc: Global,
    name: &str,
    place: &mut P,
    out: &mut O,
) -> Result<Plan, Stop>
    ensures leaves { LeavesPlace (of_place P.Place) place.old place.new (name.now ∷ []) [] (result_err result) }
    ensures read { result ≡ Err Stop.ReadFault → P.opened place.new ≡ P.opened place.old ++ name.now ∷ [] }
    ensures plan { ReadsPlan (of_sink O.Sink) out.old out.new (file_of (P.files place.old) name.now) result }
{
    let bytes = read_file(alloc, name, LONGEST_PLAN, place)?;
    plan_of(alloc, bytes.as_slice(), out)
}
