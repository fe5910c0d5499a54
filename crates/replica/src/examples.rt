// A table of worked examples, kept by the contract of a function.
ghost use Rattle.replica.specs.Examples.{Examples};

// Does nothing: its contract is that the worked examples hold of the definitions.
pub fn examples_hold()
    ensures { Examples }
{}
