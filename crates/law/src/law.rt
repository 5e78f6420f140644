// What always holds, throughout every list of calls from a new cluster.
ghost use Rattle.law.specs.Law.{LawHolds};

/// The law holds throughout every list of calls from a new cluster over a lawful memory.
pub fn law_holds()
    ensures { LawHolds }
{}
