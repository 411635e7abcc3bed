ghost use Rattle.size_laws.specs.Laws.{CallsKeepWithin, CallsWaitAtOnce, WorkKeepsWithin};
ghost use Rattle.size_laws.specs.Laws.{DeedsAreSmall, OperationsKeepWithin};
ghost use Rattle.size_laws.specs.Laws.{RecoveriesKeepWithin, RecoveryKeepsWithin};
ghost use Rattle.size_laws.specs.Laws.{RowsAreSmall, StartIsWithin};
ghost use Rattle.size_laws.specs.Moments.{BodiesAreSmall, SourcesAreSmall};
ghost use Rattle.size_laws.specs.Moments.{FilesTakeFew, FoundAreSmall, PartsAreFew};
ghost use Rattle.size_laws.specs.Requests.{CommandsKeepWithin, RequestsKeepWithin};
ghost use Rattle.size_laws.specs.Requests.{NamesKeepWithin, OpeningKeepsWithin, PointsKeepWithin};
ghost use Rattle.size_laws.specs.Requests.{PointedKeepWithin, WorksKeepWithin};

/// No operation takes the grid out of the limits.
pub fn operations_keep_within()
    ensures { OperationsKeepWithin }
{}

/// What a deed records and reads on a grid within the limits is no larger than an object may be.
pub fn deeds_are_small()
    ensures { DeedsAreSmall }
{}

/// No call of a micro-service takes the grid out of the limits.
pub fn calls_keep_within()
    ensures { CallsKeepWithin }
{}

/// Nor does an operation that runs as a call.
pub fn work_keeps_within()
    ensures { WorkKeepsWithin }
{}

/// Where a call waits for a mark, the grid is as it was before it.
pub fn calls_wait_at_once()
    ensures { CallsWaitAtOnce }
{}

/// No recovery takes the grid out of the limits.
pub fn recovery_keeps_within()
    ensures { RecoveryKeepsWithin }
{}

/// Nor do the recoveries of a list.
pub fn recoveries_keep_within()
    ensures { RecoveriesKeepWithin }
{}

/// A catalogue that stands for a grid within the limits has neither large rows nor too many resources.
pub fn rows_are_small()
    ensures { RowsAreSmall }
{}

/// A new grid is within the limits.
pub fn start_is_within()
    ensures { StartIsWithin }
{}

/// No call of rules takes the grid out of the limits.
pub fn names_keep_within()
    ensures { NamesKeepWithin }
{}

/// Nor do the rules of a point.
pub fn points_keep_within()
    ensures { PointsKeepWithin }
{}

/// Nor does an operation, without its points.
pub fn works_keep_within()
    ensures { WorksKeepWithin }
{}

/// What leaves the grid within the limits does so with its points.
pub fn pointed_keep_within()
    ensures { PointedKeepWithin }
{}

/// No command takes the grid out of the limits, and it waits within them.
pub fn commands_keep_within()
    ensures { CommandsKeepWithin }
{}

/// No request takes the grid out of the limits.
pub fn requests_keep_within()
    ensures { RequestsKeepWithin }
{}

/// No opening takes the grid out of the limits.
pub fn opening_keeps_within()
    ensures { OpeningKeepsWithin }
{}

/// What is put is no larger than an object may be.
pub fn bodies_are_small()
    ensures { BodiesAreSmall }
{}

/// Nor is what a get reads of a grid within the limits.
pub fn sources_are_small()
    ensures { SourcesAreSmall }
{}

/// Nor is an object of the rows that stand for such a grid.
pub fn found_are_small()
    ensures { FoundAreSmall }
{}

/// What is small has few parts.
pub fn parts_are_few()
    ensures { PartsAreFew }
{}

/// The files of what is small, on leaves of such a catalogue, take few moments.
pub fn files_take_few()
    ensures { FilesTakeFew }
{}
