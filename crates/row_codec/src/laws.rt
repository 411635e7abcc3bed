ghost use Rattle.std.specs.Prelude.{◌≡◌, List, [], ◌++◌, IsTrue};
ghost use Rattle.grid_model.specs.Names.{Text};
ghost use Rattle.grid_model.specs.Deltas.{delta_fits, spelling, SpellsDeltas};
ghost use Rattle.grid_model.specs.declared.deltas.Delta.{Delta};

/// No bytes spell two lists of changes.
pub fn spelled_once()
    ensures { (bytes : Text) (deltas others : List Delta) → SpellsDeltas bytes deltas → SpellsDeltas bytes others → others ≡ deltas }
{}

/// No spelling of a change begins that of another.
pub fn begins_no_other()
    ensures { (delta other : Delta) (rest : Text) → IsTrue (delta_fits delta) → IsTrue (delta_fits other) →
        spelling other ≡ spelling delta ++ rest → (rest ≡ []) × (other ≡ delta) }
{}
