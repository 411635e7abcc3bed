ghost use Rattle.std.specs.Prelude.{◌≡◌, ℕ, ◌<◌, List, [], ◌∷◌, ◌++◌, Ok, Some, IsTrue, true, false};
ghost use Rattle.std.specs.List.{AllByRecursion, Contains, list_all};
ghost use Rattle.grid_model.specs.Digests.{HasDigest};
ghost use Rattle.grid_model.specs.Names.{Text};
ghost use Rattle.grid_model.specs.Rows.{Cat, empty_cat, has_object, object};
ghost use Rattle.grid_model.specs.Applying.{apply, apply_all};
ghost use Rattle.grid_model.specs.Whole.{leaf_slot};
ghost use Rattle.grid_model.specs.declared.deltas.Delta.{Delta};
ghost use Rattle.grid_model.specs.declared.deltas.Numbers.{Numbers};
ghost use Rattle.grid_model.specs.declared.deltas.ObjectRow.{ObjectRow};
ghost use Rattle.grid_model.specs.declared.deltas.ReplicaRow.{ReplicaRow};
ghost use Rattle.grid_model.specs.declared.deltas.ResourceRow.{ResourceRow};
ghost use Rattle.grid_model.specs.declared.plans.NewFile.{NewFile};
ghost use Rattle.grid_model.specs.declared.plans.OldFile.{OldFile};
ghost use Rattle.grid_model.specs.declared.plans.Plan.{Plan};
ghost use Rattle.grid_journal.specs.Journal.{can_be_kept};
ghost use Rattle.file_laws.specs.Plans.{Turns, IsCopyPlan, IsPlan, names_no_file};
ghost use Rattle.file_laws.specs.Puts.{Target, AreLeaves, IsPut};
ghost use Rattle.file_laws.specs.Rewriting.{StoredReplica, AreStored, AreReplicas, replicas_dropped, replicas_staled, KeepsSlot};
ghost use Rattle.file_laws.specs.Rewriting.{Rewriting, MayRewrite, LeavesNoneGood, IsRewriting};
ghost use Rattle.file_laws.specs.Removals.{Forgets, no_orphans};

/// Changes of rows that name no file leave each file named, and each good replica with its file.
pub fn changes_name_no_file()
    ensures { (made : List NewFile) (body : Text) (deltas : List Delta) (c d : Cat) →
        IsTrue (list_all names_no_file deltas) → apply_all c deltas ≡ Ok d → Turns made body c d }
{}

/// What may take the place of one catalogue may be followed by what may take its own.
pub fn changes_follow()
    ensures { (made : List NewFile) (body : Text) (c d e : Cat) → Turns made body c d → Turns made body d e → Turns made body c e }
{}

/// Changes that keep each file named are a plan by themselves, behind staged ones too.
pub fn changes_make_no_file()
    ensures { (kept cat mid : Cat) (stores : ℕ) (plan : Plan) (body : Text) → plan.files ≡ [] → plan.after ≡ [] → apply_all cat plan.before ≡ Ok mid →
        IsTrue (list_all can_be_kept plan.before) → Turns [] [] kept mid → IsPlan kept cat stores plan body }
{}

/// A new object may be put on any leaves of these slots, if its changes apply: its files are orphans until they are there.
pub fn a_new_object_is_put_on_leaves()
    ensures { (deltas : List Delta) (c mid end : Cat) (o : ObjectRow) (targets : List Target) (last : ℕ) (plan : Plan) (body : Text) →
        apply_all empty_cat deltas ≡ Ok c → has_object c o.id ≡ false → HasDigest o.size o.digest body → AreLeaves c targets → IsPut c o targets last plan →
        apply_all c plan.before ≡ Ok mid → apply_all mid plan.after ≡ Ok end → IsPlan c c c.stores plan body }
{}

/// A replica may be trimmed: its row is taken away, and its file becomes an orphan of its slot.
pub fn a_replica_is_trimmed()
    ensures { (deltas : List Delta) (c mid : Cat) (r : ReplicaRow) (slot : ℕ) (numbers : Numbers) (plan : Plan) (body : Text) →
        apply_all empty_cat deltas ≡ Ok c → Contains c.replicas r → leaf_slot c r.leaf ≡ Some slot → plan.files ≡ [] → plan.after ≡ [] →
        plan.before ≡ Delta.NoReplica r.object r.number ∷ Delta.Orphan (record { vault = r.vault; slot = slot }) ∷ Delta.Numbers numbers ∷ [] →
        IsTrue (list_all can_be_kept plan.before) → apply_all c plan.before ≡ Ok mid → IsPlan c c c.stores plan body }
{}

/// The rows of orphans may be taken away where their files are gone.
pub fn gone_files_are_forgotten()
    ensures { (deltas : List Delta) (c d : Cat) (gone : List NewFile) → apply_all empty_cat deltas ≡ Ok c →
        AllByRecursion (λ f. Contains c.orphans (record { vault = f.name; slot = f.slot })) gone → apply_all c (no_orphans gone) ≡ Ok d → Forgets gone c d }
{}

/// A plan may be carried out behind staged changes that keep each file named.
pub fn a_plan_follows_staged_changes()
    ensures { (kept cat : Cat) (stores : ℕ) (plan : Plan) (body : Text) →
        Turns [] [] kept cat → IsPlan cat cat stores plan body → IsPlan kept cat stores plan body }
{}

/// Changes one after another keep each file named where the first ones do, and the others behind them.
pub fn a_list_of_changes_is_split()
    ensures { (made : List NewFile) (body : Text) (first more : List Delta) (c d : Cat) → apply_all c (first ++ more) ≡ Ok d →
        ((e : Cat) → apply_all c first ≡ Ok e → apply_all e more ≡ Ok d → Turns made body c e × Turns made body e d) → Turns made body c d }
{}

/// Replicas may go, any number of them, if their files become orphans of their slots.
pub fn replicas_are_dropped()
    ensures { (deltas : List Delta) (made : List NewFile) (body : Text) (stored : List StoredReplica) (c d : Cat) → apply_all empty_cat deltas ≡ Ok c →
        AreStored c stored → apply_all c (replicas_dropped stored) ≡ Ok d → Turns made body c d }
{}

/// Replicas may become stale, any number of them.
pub fn replicas_become_stale()
    ensures { (deltas : List Delta) (made : List NewFile) (body : Text) (rows : List ReplicaRow) (c d : Cat) → apply_all empty_cat deltas ≡ Ok c →
        AreReplicas c rows → apply_all c (replicas_staled rows) ≡ Ok d → Turns made body c d }
{}

/// An object may go that has no replicas.
pub fn an_object_goes()
    ensures { (made : List NewFile) (body : Text) (id : ℕ) (c d : Cat) → apply c (Delta.NoObject id) ≡ Ok d → Turns made body c d }
{}

/// A resource may come or change that keeps its slot.
pub fn a_resource_keeps_its_slot()
    ensures { (deltas : List Delta) (made : List NewFile) (body : Text) (r : ResourceRow) (c d : Cat) → apply_all empty_cat deltas ≡ Ok c →
        KeepsSlot c r → apply c (Delta.Resource r) ≡ Ok d → Turns made body c d }
{}

/// An object may be written over, or be new: its files are orphans until they are there, each old replica goes or stays, and none
/// that stays is good.
pub fn an_object_is_written_over()
    ensures { (deltas : List Delta) (c mid end : Cat) (o : ObjectRow) (w : Rewriting) (plan : Plan) (body : Text) → apply_all empty_cat deltas ≡ Ok c →
        MayRewrite c o w → LeavesNoneGood c o w → HasDigest o.size o.digest body → IsRewriting c o (Delta.Object o ∷ []) w plan →
        apply_all c plan.before ≡ Ok mid → apply_all mid plan.after ≡ Ok end → IsPlan c c c.stores plan body }
{}

/// An object may get more replicas with what it records, also in the place of old ones: their files are orphans until they are there.
pub fn an_object_gets_replicas()
    ensures { (deltas : List Delta) (c mid end : Cat) (o : ObjectRow) (w : Rewriting) (plan : Plan) (body : Text) → apply_all empty_cat deltas ≡ Ok c →
        MayRewrite c o w → object c o.id ≡ Some o → HasDigest o.size o.digest body → IsRewriting c o [] w plan →
        apply_all c plan.before ≡ Ok mid → apply_all mid plan.after ≡ Ok end → IsPlan c c c.stores plan body }
{}

/// The same, where the bytes are copied from a file of an older name that is recorded so: they are wanted only if there are new files.
pub fn an_object_gets_copies()
    ensures { (deltas : List Delta) (c mid end : Cat) (o : ObjectRow) (w : Rewriting) (plan : Plan) (from : OldFile) → apply_all empty_cat deltas ≡ Ok c →
        MayRewrite c o w → object c o.id ≡ Some o → from.size ≡ o.size → from.digest ≡ o.digest → from.name < c.numbers.next_vault →
        IsRewriting c o [] w plan → apply_all c plan.before ≡ Ok mid → apply_all mid plan.after ≡ Ok end → IsCopyPlan c c c.stores plan from }
{}

/// A replica's row may be taken away where its file is gone.
pub fn a_lost_replica_is_forgotten()
    ensures { (deltas : List Delta) (r : ReplicaRow) (slot : ℕ) (c d : Cat) → apply_all empty_cat deltas ≡ Ok c → Contains c.replicas r →
        leaf_slot c r.leaf ≡ Some slot → apply c (Delta.NoReplica r.object r.number) ≡ Ok d → Forgets (record { slot = slot; name = r.vault } ∷ []) c d }
{}
