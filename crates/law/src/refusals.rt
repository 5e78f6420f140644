// A refused call changes nothing. A drain that memory stopped alone keeps what it did.
ghost use Rattle.law.specs.Refusals.{RefusalsChangeNothing};

/// A refused call changes nothing, whatever the board: command, drain, census and lock question.
pub fn refusals_change_nothing()
    ensures { RefusalsChangeNothing }
{}
