ghost use Rattle.examples.specs.Gates.{Alike, Apart};

// The worked examples of vans at gates, as facts about boards.
pub fn gate_examples()
    ensures alike { Alike }
    ensures apart { Apart }
{}
