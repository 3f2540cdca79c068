//! What holds of whole runs, as laws of the definitions.
ghost use Rattle.run_law.specs.RunLaws.{OpeningStands, StepIsItsEvent, RunIsOfTheMachine};
ghost use Rattle.run_law.specs.Turns.{TurnIsSteps};
ghost use Rattle.run_law.specs.WholeWorks.{WholeWorkIsSteps};
ghost use Rattle.run_law.specs.Works.{WorkIsSteps};

/// Where all is opened the machine's first world stands where the run does. Each step leads from a world that stands
/// there to one that does, by its event or by none, and each such event is possible. So the world that the events of
/// all steps make, with none skipped, stands where the run does then. Each step of the builder's work is such steps: a
/// draw, a take, and a tell and a put for each mailbox where its builder's answer asks for it. The whole of the work is
/// such steps, with steps of other ends anywhere in between. Each turn of a session is such steps: where
/// its line asks for news, it asks its mailbox and learns what was put last, and where it asks for a look, it looks
/// then. It does nothing when run.
pub fn run_laws()
    ensures opening { OpeningStands }
    ensures step { StepIsItsEvent }
    ensures run { RunIsOfTheMachine }
    ensures work { WorkIsSteps }
    ensures whole { WholeWorkIsSteps }
    ensures turn { TurnIsSteps }
{}
