ghost use Rattle.chain_run.specs.Calls.{Made, stop_of};
ghost use Rattle.chain_run.specs.Places.{Performs, Place, Recovers};
ghost use Rattle.grid_model.specs.Values.{recorded_size};
ghost use Rattle.std.specs.Prelude.{◌≡◌, ◌++◌, ◌∷◌, [], List, IfErr, IfOk};

use grid_model::{Call, Calls, Failure, Text};

/// What does the calls of rules for one user, on a grid.
///
/// A call that answers no stop did what the definitions say, with the marks that were taken in it. Of one that is stopped only
/// `went` says anything, which is each doer's own: what it has come to by the calls that were made of it. A call is handed the
/// recoveries that are done if it is stopped: with `undo` the last of them is the recovery itself. Before each call `ready`
/// holds, and so it does after one that is not stopped.
pub trait Doer {
    /// Why a call was not done, or not to its end.
    type Stop: Drop;

    ghost place: { Self → Place };

    ghost went: { Self → List (Made Self.Stop) → Self → Type 0 };

    ghost no_size: { Self → Self.Stop → Type 0 };

    ghost ready: { Self → Type 0 };

    /// The recorded size in bytes of the object at the path that the text spells, as it is now, and 0 where there is none.
    fn size_at(&self, path: &Text) -> Result<u64, Self::Stop>
        requires ready { ready self.now }
        ensures size { IfOk result (λ size. size ≡ recorded_size (place self.now).grid path.now) }
        ensures stopped { IfErr result (no_size self.now) };

    /// Runs a micro-service: how it failed, if it did.
    fn perform(&mut self, call: &Call, undo: &Calls) -> Result<Result<(), Failure>, Self::Stop>
        requires ready { ready self.old }
        ensures ready { IfOk result (λ ran. ready self.new) }
        ensures performs { IfOk result (λ ran. Performs call.now ran (place self.old) (place self.new)) }
        ensures goes { (from : Self) (calls : List (Made Self.Stop)) → went from calls self.old →
            went from (calls ++ record { call = call.now; undo = undo.now; place = place self.old; stop = stop_of result } ∷ []) self.new };

    /// Runs a recovery: how it failed, if it did. It is not answered that it was stopped: that is a stop of the doer.
    fn undo(&mut self, call: &Call, undo: &Calls) -> Result<Option<Failure>, Self::Stop>
        requires ready { ready self.old }
        ensures ready { IfOk result (λ failure. ready self.new) }
        ensures recovers { IfOk result (λ failure. Recovers call.now failure (place self.old) (place self.new)) }
        ensures goes { (from : Self) (calls : List (Made Self.Stop)) → went from calls self.old →
            went from (calls ++ record { call = call.now; undo = undo.now; place = place self.old; stop = stop_of result } ∷ []) self.new };

    ghost begins: { (doer : Self) → went doer [] doer };
}
