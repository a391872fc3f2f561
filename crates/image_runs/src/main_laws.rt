//! The law of the beginning of a run.

ghost use Rattle.image_runs.specs.MainLaws.{MainIsBegun};

/// From a state in which `main` is called with the argument of the run, the machine comes to its
/// first instruction, with any numbers in the locals after its arguments.
pub fn laws()
    ensures main { MainIsBegun }
{}
