ghost use Rattle.chain_laws.specs.ByRows.{CallsEndByRows, NamesEndByRows, RowsAreOfGrid};
ghost use Rattle.chain_laws.specs.Ending.{CallsComplete, MachinesComplete, NamesComplete};
ghost use Rattle.chain_laws.specs.Ending.{PerformedCompletes, RecoveredCompletes};
ghost use Rattle.chain_laws.specs.Ending.{WaitingCompletes};

/// What a machine has still to do can be brought to an end by marks of deeds that ran.
pub fn machines_complete()
    ensures { MachinesComplete }
{}

/// So can a call of rules.
pub fn names_complete()
    ensures { NamesComplete }
{}

/// So can a call by itself.
pub fn calls_complete()
    ensures { CallsComplete }
{}

/// So can what a machine has still to do behind a mark for which it waits.
pub fn waiting_completes()
    ensures { WaitingCompletes }
{}

/// So can what it has still to do behind a call that it asked for.
pub fn performed_completes()
    ensures { PerformedCompletes }
{}

/// So can what it has still to do behind a recovery that it asked for.
pub fn recovered_completes()
    ensures { RecoveredCompletes }
{}

/// What refuses an operation is of the grid.
pub fn rows_are_of_grid()
    ensures { RowsAreOfGrid }
{}

/// With clean marks a call of rules ends by the rows and by its steps.
pub fn names_end_by_rows()
    ensures { NamesEndByRows }
{}

/// With clean marks a call by itself ends by the rows and by its step.
pub fn calls_end_by_rows()
    ensures { CallsEndByRows }
{}
