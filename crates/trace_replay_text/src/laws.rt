//! What holds of every text, by definition.

ghost use Rattle.trace_replay_text.specs.Laws.{TracesAreTold};

/// A text is read in one way at most.
pub fn traces_are_told()
    ensures { TracesAreTold }
{}
