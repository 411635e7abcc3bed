ghost use Rattle.grid_model.specs.Central.{StopUndoes};
ghost use Rattle.grid_model.specs.Completing.{OkWhereHolds};
ghost use Rattle.grid_model.specs.Uploads.{BytesAreOwn};

/// Wherever a command waits for a mark, a stop and any further marks do what its recoveries do with those.
pub fn a_stop_undoes()
    ensures { StopUndoes }
{}

/// A command whose points and operation hold, and whose marks are clean, ends ok.
pub fn what_holds_ends_ok()
    ensures { OkWhereHolds }
{}

/// The bytes of an upload are those of its session's parts, in order.
pub fn bytes_are_own()
    ensures { BytesAreOwn }
{}
