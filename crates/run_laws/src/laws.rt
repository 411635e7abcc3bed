ghost use Rattle.std.specs.Prelude.{List, [], ◌∷◌, ◌++◌, ℕ, ◌+◌, length};
ghost use Rattle.grid_model.specs.Rows.{Cat};
ghost use Rattle.grid_model.specs.Beginning.{begins};
ghost use Rattle.grid_model.specs.Inputs.{Asked};
ghost use Rattle.grid_model.specs.Runs.{Request};
ghost use Rattle.grid_model.specs.Sessions.{State};
ghost use Rattle.grid_headline.specs.Ends.{RunEnd};
ghost use Rattle.grid_headline.specs.Headline.{BeginsOn, Serves};
ghost use Rattle.grid_headline.specs.Reads.{EndsInput, MeansRequest};
ghost use Rattle.grid_headline.specs.Served.{BeginsWithRequests};
ghost use Rattle.run_laws.specs.Ends.{IsGoodIfNoneFailed, ReadsSo, StopsSo};
ghost use Rattle.run_laws.specs.Moments.{OpensInFew, SweepsInFew};
ghost use Rattle.run_laws.specs.Opening.{Opened, Opens};
ghost use Rattle.run_laws.specs.Silent.{IsSwept, LeavesFew, Sweeps};
ghost use Rattle.run_laws.specs.Sofar.{CallsGoOn, Sofar};
ghost use Rattle.run_laws.specs.Steps.{IsQuiet, IsHandledWhole, NotesLine, RequestStep};
ghost use Rattle.run_laws.specs.Surrounding.{world};

use crate::around::Around;
use grid_outside::{Ambient, Disk, Plugin, Sink, Source};

/// Where something ran out or failed while a run was opened, all holds that is promised of a run.
pub fn a_run_ends_in_its_opening<D: Disk, S: Source, K: Sink, A: Ambient, P: Plugin>(
    old: &Around<D, S, K, A, P>,
    now: &Around<D, S, K, A, P>,
)
    ensures { let from = world D.disk S.source K.sink A.ambient P.plugin old.now in let to = world D.disk S.source K.sink A.ambient P.plugin now.now in
        (found : Cat) (end : RunEnd) → BeginsOn from found → (opens : Opens from to found) → OpensInFew from to found →
        StopsSo from to found (begins opens.undone.opened.grid opens.undone.rules) [] end → IsGoodIfNoneFailed from to end → Serves from to found end }
{}

/// A run that is begun, in which what was pending is undone, and that has swept, has handled no request yet.
pub fn a_run_is_begun<D: Disk, S: Source, K: Sink, A: Ambient, P: Plugin>(
    old: &Around<D, S, K, A, P>,
    mid: &Around<D, S, K, A, P>,
    now: &Around<D, S, K, A, P>,
)
    ensures { let from = world D.disk S.source K.sink A.ambient P.plugin old.now in let by = world D.disk S.source K.sink A.ambient P.plugin mid.now in
        let to = world D.disk S.source K.sink A.ambient P.plugin now.now in
        (found begun c : Cat) → BeginsOn from found → (opened : Opened from by found begun) → OpensInFew from by found →
        Sweeps by to begun c → SweepsInFew by to → IsSwept by to begun c → Sofar from to found c (begins opened.opens.undone.opened.grid opened.opens.undone.rules) [] }
{}

/// Where something ran out or failed in the sweep behind the opening, all holds that is promised of a run.
pub fn a_run_ends_in_its_sweep<D: Disk, S: Source, K: Sink, A: Ambient, P: Plugin>(
    old: &Around<D, S, K, A, P>,
    mid: &Around<D, S, K, A, P>,
    now: &Around<D, S, K, A, P>,
)
    ensures { let from = world D.disk S.source K.sink A.ambient P.plugin old.now in let by = world D.disk S.source K.sink A.ambient P.plugin mid.now in
        let to = world D.disk S.source K.sink A.ambient P.plugin now.now in
        (found begun left : Cat) (end : RunEnd) → BeginsOn from found → (opened : Opened from by found begun) → OpensInFew from by found →
        Sweeps by to begun left → SweepsInFew by to →
        StopsSo from to found (begins opened.opens.undone.opened.grid opened.opens.undone.rules) [] end →
        IsGoodIfNoneFailed from to end → Serves from to found end }
{}

/// Behind the requests that were handled comes one more, which is handled whole and does not end the input.
pub fn a_run_goes_on<D: Disk, S: Source, K: Sink, A: Ambient, P: Plugin>(
    old: &Around<D, S, K, A, P>,
    mid: &Around<D, S, K, A, P>,
    new: &Around<D, S, K, A, P>,
)
    ensures { let from = world D.disk S.source K.sink A.ambient P.plugin old.now in let by = world D.disk S.source K.sink A.ambient P.plugin mid.now in
        let to = world D.disk S.source K.sink A.ambient P.plugin new.now in
        (found c after : Cat) (at end : State) (asked : List Asked) (a : Asked) (request : Request) → BeginsOn from found →
        Sofar from by found c at asked → CallsGoOn from.source.left by to c → NotesLine a.line by to → MeansRequest at a request → ¬ EndsInput a
        → (step : RequestStep by to at c (length asked + 1) request) → LeavesFew by to request step.d after →
        IsHandledWhole by to at c (length asked + 1) request step after end → Sofar from to found after end (asked ++ a ∷ []) }
{}

/// Where the input was read so far and all that was handled is answered, all holds that is promised of a run.
pub fn a_run_ends_answered<D: Disk, S: Source, K: Sink, A: Ambient, P: Plugin>(
    old: &Around<D, S, K, A, P>,
    now: &Around<D, S, K, A, P>,
)
    ensures { let from = world D.disk S.source K.sink A.ambient P.plugin old.now in let to = world D.disk S.source K.sink A.ambient P.plugin now.now in
        (found c : Cat) (at : State) (asked : List Asked) (end : RunEnd) → BeginsOn from found → Sofar from to found c at asked →
        BeginsWithRequests from.source.left asked → ReadsSo asked from.source to.source end → IsGoodIfNoneFailed from to end → Serves from to found end }
{}

/// Where something ran out or failed, and nothing is seen of what was done for it, all holds that is promised of a run.
pub fn a_run_ends_early<D: Disk, S: Source, K: Sink, A: Ambient, P: Plugin>(
    old: &Around<D, S, K, A, P>,
    mid: &Around<D, S, K, A, P>,
    new: &Around<D, S, K, A, P>,
)
    ensures { let from = world D.disk S.source K.sink A.ambient P.plugin old.now in let by = world D.disk S.source K.sink A.ambient P.plugin mid.now in
        let to = world D.disk S.source K.sink A.ambient P.plugin new.now in
        (found c : Cat) (at : State) (asked : List Asked) (end : RunEnd) → BeginsOn from found → Sofar from by found c at asked
        → CallsGoOn from.source.left by to c → IsQuiet by to c → BeginsWithRequests from.source.left asked
        → StopsSo from to found at asked end → IsGoodIfNoneFailed from to end →
        Serves from to found end }
{}
