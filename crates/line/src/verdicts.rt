// What the law of the line says of small histories, kept by the contract of a function.
ghost use Rattle.history.specs.Examples.{Verdicts};

// Does nothing: its contract is that the law takes the fair history and refuses each of the others.
pub fn verdicts_hold()
    ensures { Verdicts }
{}
