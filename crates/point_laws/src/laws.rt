ghost use Rattle.point_laws.specs.Names.{NamesAreStopped, NamesHalt, NamesTakeInOrder};
ghost use Rattle.point_laws.specs.Works.{AfterWorkEnds, AfterWorkSends, PreEnds, WorkEnds};
ghost use Rattle.point_laws.specs.Works.{WorksEndByRows, WorksSendBehind, WorksTakeInOrder};

/// The rules of a name take their marks in their order, from the first one on.
pub fn names_take_in_order()
    ensures { NamesTakeInOrder }
{}

/// The rules of a name in which a stop was taken halt as stopped.
pub fn names_halt()
    ensures { NamesHalt }
{}

/// The rules of a name fail as stopped only where a stop was taken.
pub fn names_are_stopped()
    ensures { NamesAreStopped }
{}

/// An operation with its points takes its marks in their order, from the first one on.
pub fn works_take_in_order()
    ensures { WorksTakeInOrder }
{}

/// With clean marks an operation with its points ends by the rows and by its steps.
pub fn works_end_by_rows()
    ensures { WorksEndByRows }
{}

/// An operation with its points sends behind all marks that the rules before it took, and in front of one.
pub fn works_send_behind()
    ensures { WorksSendBehind }
{}

/// From behind the operation, its request sends what that sent.
pub fn after_work_sends()
    ensures { AfterWorkSends }
{}

/// An operation with its points can be brought to an end from behind the operation.
pub fn after_work_ends()
    ensures { AfterWorkEnds }
{}

/// So can it from in front of the operation.
pub fn work_ends()
    ensures { WorkEnds }
{}

/// So can it from behind the rules before it.
pub fn pre_ends()
    ensures { PreEnds }
{}
