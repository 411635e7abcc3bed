ghost use Rattle.chain_laws.specs.Stopped.{StopsHalt};
ghost use Rattle.chain_laws.specs.Taken.{TakesInOrder};

/// A call by itself in which a stop was taken ends stopped.
pub fn stops_halt()
    ensures { StopsHalt }
{}

/// A call by itself takes its marks in their order, from the first one on.
pub fn takes_in_order()
    ensures { TakesInOrder }
{}
