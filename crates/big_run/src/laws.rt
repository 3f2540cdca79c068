//! What holds of the feeds and the final script of a large run.
ghost use Rattle.big_run.specs.Laws.{AllAccepted, AsksFour};

/// Every row of a generated feed of at most 100,000 rows is a point of the plan that is built in, so the report says
/// that all were accepted. The final script asks for four tables. It does nothing when run.
pub fn big_run_laws()
    ensures accepted { AllAccepted }
    ensures asks { AsksFour }
{}
