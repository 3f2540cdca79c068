//! A question sent to all runs.
ghost use Rattle.std.specs.Prelude.{◌≡◌, ◌<◌, ℕ, Err, OnOk, length};
ghost use Rattle.std.specs.List.{AllZip};
ghost use Rattle.run_files.specs.Outside.{Puts, of_sink};
ghost use Rattle.live_sums.specs.declared.fault.WrongShare.{WrongShare};

use crate::fault::{TurnFault, WrongShare};
use outer_io::{IoFault, Sink};
use run_files::Stop;

/// Puts a line into each ask, in order.
pub(crate) fn ask_all<O: Sink>(asks: &mut [O], line: &[u8]) -> Result<(), TurnFault>
    ensures asked { OnOk result (AllZip (λ ask now. Puts (of_sink O.Sink) ask now line.now) asks.old asks.new) }
    ensures place { (k : ℕ) (w : WrongShare) → result ≡ Err (TurnFault.Wrong k w) → (k < length asks.old) × (w ≡ WrongShare.NotAsked) }
    ensures size { length asks.new ≡ length asks.old }
{
    for (i, ask) in asks.iter_mut().enumerate() {
        match ask.put(line) {
            Ok(()) => {}
            Err(IoFault::Failed) => return Err(TurnFault::Wrong(i, WrongShare::NotAsked)),
            Err(IoFault::NoMemory) => return Err(TurnFault::Stopped(Stop::NoMemory)),
        }
    }
    Ok(())
}
