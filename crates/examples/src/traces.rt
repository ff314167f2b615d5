ghost use Rattle.examples.specs.Traces.{Sampled};

// The worked example of a trace, as facts about its clocks and about boards.
pub fn trace_examples()
    ensures { Sampled }
{}
