// The worked cases: eight short runs and three column counts.
ghost use Rattle.cluster.specs.Worked.{WorkedCases};

/// Eight short runs and three column counts come out by the rules as they were worked by hand.
pub fn worked_cases_stand()
    ensures { WorkedCases }
{}
