ghost use Rattle.std.specs.Prelude.{◌≡◌, ℕ, List, Result, Ok};
ghost use Rattle.std.specs.List.{AllByRecursion};
ghost use Rattle.grid_model.specs.Applying.{apply_all};
ghost use Rattle.grid_model.specs.Names.{Text};
ghost use Rattle.grid_model.specs.Rows.{Cat};
ghost use Rattle.grid_model.specs.declared.deltas.Delta.{Delta};
ghost use Rattle.grid_model.specs.declared.grid.Side.{Side};
ghost use Rattle.grid_journal.specs.Journal.{Journal, Keeps, HasKeptRules, MayBeKept};
ghost use Rattle.grid_journal.specs.Stands.{Stands};

/// Two disks stand for one catalogue, or for none from one place on, and never for two things.
pub fn stands_for_one()
    ensures { (main spare : Text) (one other : Result Cat (Side × ℕ)) → Stands main spare one → Stands main spare other → other ≡ one }
{}

/// Where main keeps a catalogue for a journal, it stands for it, whatever spare holds.
pub fn kept_stands()
    ensures { (kept : Cat) (journal : Journal) (main spare : Text) → Keeps kept journal main → Stands main spare (Ok kept) }
{}

/// The rules of the catalogue for which disks stand are allowed, and stand in it as they are printed. Deltas that may be kept
/// leave it so. It does nothing.
pub fn rules_are_kept()
    ensures standing { (main spare : Text) (c : Cat) → Stands main spare (Ok c) → HasKeptRules c }
    ensures staged { (deltas : List Delta) (c after : Cat) → AllByRecursion MayBeKept deltas → apply_all c deltas ≡ Ok after → HasKeptRules c
        → HasKeptRules after }
{}
