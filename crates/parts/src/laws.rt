// The laws of charts.
ghost use Rattle.parts.specs.ChartLaws.{ChartLaws};

// Does nothing: its contract is a theorem, that the laws hold of charts of any length.
pub fn chart_laws_hold()
    ensures { ChartLaws }
{}
