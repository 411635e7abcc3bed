ghost use Rattle.count_laws.specs.Counts.{FewByNumbers, LeavesAreFew, LeavesStay, RowsAreFew};

/// No change takes a leaf away.
pub fn leaves_stay()
    ensures { LeavesStay }
{}

/// Leaves that differ from one another, such as those that a deed makes its files on, are no more than there are leaves.
pub fn leaves_are_few()
    ensures { LeavesAreFew }
{}

/// There are at most as many more rows that name files as vault numbers were given.
pub fn rows_are_few()
    ensures { RowsAreFew }
{}

/// What few marks need is few more rows, where it is few more vault numbers.
pub fn few_by_numbers()
    ensures { FewByNumbers }
{}
