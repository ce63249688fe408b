//! What holds for each session, as contracts of functions. Call one to use its law in a proof.

ghost use Rattle.simulator.specs.Simulation.{EachSessionEnds};

/// Each session with an answer to reset that can be used ends, whatever is lost, damaged or spoiled. It takes fewer
/// events than `most_events` in `specs/Simulation.antt`.
pub fn each_session_ends()
    ensures { EachSessionEnds }
{}
