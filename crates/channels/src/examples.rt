// Worked examples: what the definitions say of numbers worked out by hand.
ghost use Rattle.channels.specs.Examples.{WorkedExamples};

// Does nothing: the examples hold of the definitions.
pub fn worked_examples()
    ensures { WorkedExamples }
{}
