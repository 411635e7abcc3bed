ghost use Rattle.std.specs.Prelude.{◌≡◌, ℕ, List, [], ◌∷◌, ◌++◌, Ok, Some, true, false};
ghost use Rattle.grid_model.specs.Applying.{apply, apply_all};
ghost use Rattle.grid_model.specs.RowGrids.{collection_place, grid_of, is_seen, item_place, object_of, object_place, replica_of};
ghost use Rattle.grid_model.specs.RowGrids.{resource_of, triple_of, user_name};
ghost use Rattle.grid_model.specs.Moves.{moved_grid};
ghost use Rattle.grid_model.specs.Siblings.{with_resource, without_resource};
ghost use Rattle.grid_model.specs.Renames.{renamed_grid};
ghost use Rattle.grid_model.specs.Maps.{add, empty, put, remove};
ghost use Rattle.grid_model.specs.Names.{Text};
ghost use Rattle.grid_model.specs.RowTrees.{IsTree, IsTied};
ghost use Rattle.grid_model.specs.RowPaths.{collection_path};
ghost use Rattle.grid_model.specs.Rows.{Cat, IsCat, collection, empty_cat, has_collection, has_object, has_resource, object, resource};
ghost use Rattle.grid_model.specs.declared.deltas.UserRow.{UserRow};
ghost use Rattle.grid_model.specs.declared.deltas.ResourceRow.{ResourceRow};
ghost use Rattle.grid_model.specs.declared.deltas.MemberRow.{MemberRow};
ghost use Rattle.grid_model.specs.declared.deltas.TripleRow.{TripleRow};
ghost use Rattle.grid_model.specs.declared.deltas.EntryRow.{EntryRow};
ghost use Rattle.grid_model.specs.declared.grid.ItemKind.{ItemKind};
ghost use Rattle.grid_model.specs.declared.deltas.CollectionRow.{CollectionRow};
ghost use Rattle.grid_model.specs.declared.deltas.ObjectRow.{ObjectRow};
ghost use Rattle.grid_model.specs.declared.deltas.ReplicaRow.{ReplicaRow};
ghost use Rattle.grid_model.specs.declared.deltas.Delta.{Delta};

/// The keys of each table strictly rise, and what has a name has one.
pub fn deltas_keep_tables()
    ensures { (deltas : List Delta) (c : Cat) → apply_all empty_cat deltas ≡ Ok c → IsCat c }
{}

/// Each collection and each object has one path, which is of nothing else, and lies in a collection; what has a path is
/// found there.
pub fn deltas_make_trees()
    ensures { (deltas : List Delta) (c : Cat) → apply_all empty_cat deltas ≡ Ok c → IsTree c }
{}

/// Members, replicas, metadata, access, resources and the command that is not done speak of rows that are there, no two
/// rows have one vault number, and no two users or resources one name.
pub fn deltas_keep_ties()
    ensures { (deltas : List Delta) (c : Cat) → apply_all empty_cat deltas ≡ Ok c → IsTied c }
{}

/// A zone gives the grid its name and its stores, and changes nothing else of it.
pub fn a_zone_names_the_grid()
    ensures { (c d : Cat) (name : Text) (count : ℕ) → apply c (Delta.Zone name count) ≡ Ok d → grid_of d ≡ record (grid_of c) { zone = name; stores = count } }
{}

/// Orphans, numbers and the command that is not done are not seen of the grid.
pub fn unseen_deltas_leave_the_grid()
    ensures { (c d : Cat) (delta : Delta) → is_seen delta ≡ false → apply c delta ≡ Ok d → grid_of d ≡ grid_of c }
{}

/// A collection with a new id, other than `/`, is put into the grid below its parent, and nothing else of the grid
/// changes.
pub fn a_new_collection_is_put()
    ensures { (deltas : List Delta) (c d : Cat) (row : CollectionRow) → apply_all empty_cat deltas ≡ Ok c → (row.id ≡ 0 → ⊥) →
        has_collection c row.id ≡ false → apply c (Delta.Collection row) ≡ Ok d →
        grid_of d
        ≡ record (grid_of c) { collections = put (grid_of c).collections (collection_place (collection_path c) row.parent ++ row.name ∷ []) row.inherit } }
{}

/// An object with a new id is put into the grid in its collection, without replicas, and nothing else of the grid
/// changes.
pub fn a_new_object_is_put()
    ensures { (deltas : List Delta) (c d : Cat) (row : ObjectRow) → apply_all empty_cat deltas ≡ Ok c → has_object c row.id ≡ false →
        apply c (Delta.Object row) ≡ Ok d →
        grid_of d ≡ record (grid_of c) {
          objects = put (grid_of c).objects (collection_place (collection_path c) row.collection ++ row.name ∷ [])
              (record { size = row.size; digest = row.digest; time = row.time; replicas = empty });
        } }
{}

/// A replica is put among those of its object under its number, in the place of the one that has it, and nothing else of
/// the grid changes.
pub fn a_replica_is_put()
    ensures { (deltas : List Delta) (c d : Cat) (row : ReplicaRow) (o : ObjectRow) → apply_all empty_cat deltas ≡ Ok c → object c row.object ≡ Some o →
        apply c (Delta.Replica row) ≡ Ok d →
        grid_of d ≡ record (grid_of c) {
          objects = put (grid_of c).objects (object_place (collection_path c) o)
              (record (object_of c o) { replicas = put (object_of c o).replicas row.number (replica_of c row) });
        } }
{}

/// A user or a group is put into the grid under its name, and nothing else of the grid changes.
pub fn a_user_is_put()
    ensures { (deltas : List Delta) (c d : Cat) (row : UserRow) → apply_all empty_cat deltas ≡ Ok c → apply c (Delta.User row) ≡ Ok d →
        grid_of d ≡ record (grid_of c) { users = put (grid_of c).users row.name row.kind } }
{}

/// A user who joins a group is in it, and nothing else of the grid changes.
pub fn a_member_is_added()
    ensures { (deltas : List Delta) (c d : Cat) (row : MemberRow) → apply_all empty_cat deltas ≡ Ok c → apply c (Delta.Member row) ≡ Ok d →
        grid_of d ≡ record (grid_of c) { members = add (grid_of c).members (user_name c row.group, user_name c row.user) } }
{}

/// A user who leaves a group is not in it, and nothing else of the grid changes.
pub fn a_member_is_removed()
    ensures { (deltas : List Delta) (c d : Cat) (row : MemberRow) → apply_all empty_cat deltas ≡ Ok c → apply c (Delta.NoMember row) ≡ Ok d →
        grid_of d ≡ record (grid_of c) { members = remove (grid_of c).members (user_name c row.group, user_name c row.user) } }
{}

/// A collection that is dropped is not at its path, and nothing else of the grid changes.
pub fn a_collection_is_removed()
    ensures { (deltas : List Delta) (c d : Cat) (id : ℕ) → apply_all empty_cat deltas ≡ Ok c → apply c (Delta.NoCollection id) ≡ Ok d →
        grid_of d ≡ record (grid_of c) { collections = remove (grid_of c).collections (collection_place (collection_path c) id) } }
{}

/// An object that is dropped is not at its path, and nothing else of the grid changes.
pub fn an_object_is_removed()
    ensures { (deltas : List Delta) (c d : Cat) (id : ℕ) (o : ObjectRow) → apply_all empty_cat deltas ≡ Ok c → object c id ≡ Some o →
        apply c (Delta.NoObject id) ≡ Ok d →
        grid_of d ≡ record (grid_of c) { objects = remove (grid_of c).objects (object_place (collection_path c) o) } }
{}

/// A replica that is dropped is not among those of its object, and nothing else of the grid changes.
pub fn a_replica_is_removed()
    ensures { (deltas : List Delta) (c d : Cat) (id number : ℕ) (o : ObjectRow) → apply_all empty_cat deltas ≡ Ok c → object c id ≡ Some o →
        apply c (Delta.NoReplica id number) ≡ Ok d →
        grid_of d ≡ record (grid_of c) {
          objects = put (grid_of c).objects (object_place (collection_path c) o) (record (object_of c o) { replicas = remove (object_of c o).replicas number });
        } }
{}

/// Metadata is put at its thing, and nothing else of the grid changes.
pub fn a_triple_is_added()
    ensures { (deltas : List Delta) (c d : Cat) (row : TripleRow) → apply_all empty_cat deltas ≡ Ok c → apply c (Delta.Triple row) ≡ Ok d →
        grid_of d ≡ record (grid_of c) { triples = add (grid_of c).triples (triple_of c (collection_path c) row) } }
{}

/// Metadata is taken from its thing, and nothing else of the grid changes.
pub fn a_triple_is_removed()
    ensures { (deltas : List Delta) (c d : Cat) (row : TripleRow) → apply_all empty_cat deltas ≡ Ok c → apply c (Delta.NoTriple row) ≡ Ok d →
        grid_of d ≡ record (grid_of c) { triples = remove (grid_of c).triples (triple_of c (collection_path c) row) } }
{}

/// An object or a collection gives a user or a group a level of access, in the place of the one that it gave, and nothing
/// else of the grid changes.
pub fn access_is_put()
    ensures { (deltas : List Delta) (c d : Cat) (row : EntryRow) → apply_all empty_cat deltas ≡ Ok c → apply c (Delta.Entry row) ≡ Ok d →
        grid_of d ≡ record (grid_of c) { access = put (grid_of c).access (item_place c (collection_path c) row.kind row.id, user_name c row.user) row.level } }
{}

/// An object or a collection gives a user or a group no access any more, and nothing else of the grid changes.
pub fn access_is_removed()
    ensures { (deltas : List Delta) (c d : Cat) (kind : ItemKind) (id user : ℕ) → apply_all empty_cat deltas ≡ Ok c →
        apply c (Delta.NoEntry kind id user) ≡ Ok d →
        grid_of d ≡ record (grid_of c) { access = remove (grid_of c).access (item_place c (collection_path c) kind id, user_name c user) } }
{}

/// `/` is put into the grid, and nothing else of the grid changes.
pub fn the_root_is_put()
    ensures { (deltas : List Delta) (c d : Cat) (row : CollectionRow) → apply_all empty_cat deltas ≡ Ok c → row.id ≡ 0 →
        apply c (Delta.Collection row) ≡ Ok d → grid_of d ≡ record (grid_of c) { collections = put (grid_of c).collections [] row.inherit } }
{}

/// A collection that is put again at its place has its new flag, and nothing else of the grid changes.
pub fn a_collection_is_changed()
    ensures { (deltas : List Delta) (c d : Cat) (row old : CollectionRow) → apply_all empty_cat deltas ≡ Ok c → (row.id ≡ 0 → ⊥) →
        collection c row.id ≡ Some old → row.parent ≡ old.parent → row.name ≡ old.name → apply c (Delta.Collection row) ≡ Ok d →
        grid_of d ≡ record (grid_of c) { collections = put (grid_of c).collections (collection_place (collection_path c) row.id) row.inherit } }
{}

/// A collection that is put again, elsewhere or under another name, is there with its new flag. All that lies below it is
/// below its new path, metadata and access go with what they are of, and nothing else of the grid changes.
pub fn a_collection_is_moved()
    ensures { (deltas : List Delta) (c d : Cat) (row : CollectionRow) → apply_all empty_cat deltas ≡ Ok c → (row.id ≡ 0 → ⊥) →
        has_collection c row.id ≡ true → apply c (Delta.Collection row) ≡ Ok d →
        let from = collection_place (collection_path c) row.id in
        let to = collection_place (collection_path c) row.parent ++ row.name ∷ [] in
        let g = moved_grid from to (grid_of c) in
        grid_of d ≡ record g { collections = put g.collections to row.inherit } }
{}

/// An object that is put again at its place is what was written, with the replicas that it had, and nothing else of the
/// grid changes.
pub fn an_object_is_changed()
    ensures { (deltas : List Delta) (c d : Cat) (row old : ObjectRow) → apply_all empty_cat deltas ≡ Ok c → object c row.id ≡ Some old →
        row.collection ≡ old.collection → row.name ≡ old.name → apply c (Delta.Object row) ≡ Ok d →
        grid_of d ≡ record (grid_of c) {
          objects = put (grid_of c).objects (object_place (collection_path c) old)
              (record (object_of c old) { size = row.size; digest = row.digest; time = row.time });
        } }
{}

/// An object that is put again, elsewhere or under another name, is there, with the replicas that it had. Its metadata and
/// access go with it, and nothing else of the grid changes.
pub fn an_object_is_moved()
    ensures { (deltas : List Delta) (c d : Cat) (row old : ObjectRow) → apply_all empty_cat deltas ≡ Ok c → object c row.id ≡ Some old →
        apply c (Delta.Object row) ≡ Ok d →
        let from = object_place (collection_path c) old in
        let to = object_place (collection_path c) row in
        let g = moved_grid from to (grid_of c) in
        grid_of d ≡ record g { objects = put g.objects to (record (object_of c old) { size = row.size; digest = row.digest; time = row.time }) } }
{}

/// A resource with a new id is put into the grid under its name, those of its siblings that come behind it stand one
/// further, and nothing else of the grid changes.
pub fn a_new_resource_is_put()
    ensures { (deltas : List Delta) (c d : Cat) (row : ResourceRow) → apply_all empty_cat deltas ≡ Ok c → has_resource c row.id ≡ false →
        apply c (Delta.Resource row) ≡ Ok d →
        grid_of d ≡ record (grid_of c) { resources = with_resource (grid_of c).resources row.name (resource_of c row) } }
{}

/// A resource without a parent that keeps its name and is given one is put among the children of that in the same way.
pub fn a_resource_becomes_a_child()
    ensures { (deltas : List Delta) (c d : Cat) (row old : ResourceRow) → apply_all empty_cat deltas ≡ Ok c → resource c row.id ≡ Some old →
        old.parent ≡ 0 → row.name ≡ old.name → apply c (Delta.Resource row) ≡ Ok d →
        grid_of d ≡ record (grid_of c) { resources = with_resource (grid_of c).resources row.name (resource_of c row) } }
{}

/// A resource that keeps its name and place has its new slot and status, and nothing else of the grid changes.
pub fn a_resource_is_changed()
    ensures { (deltas : List Delta) (c d : Cat) (row old : ResourceRow) → apply_all empty_cat deltas ≡ Ok c → resource c row.id ≡ Some old →
        row.name ≡ old.name → row.parent ≡ old.parent → row.place ≡ old.place → apply c (Delta.Resource row) ≡ Ok d →
        grid_of d ≡ record (grid_of c) { resources = put (grid_of c).resources row.name (record (resource_of c old) { slot = row.slot; up = row.up }) } }
{}

/// The text of the rules is not in the grid.
pub fn rules_leave_the_grid()
    ensures { (c d : Cat) (text : Text) → apply c (Delta.Rules text) ≡ Ok d → grid_of d ≡ grid_of c }
{}

/// A resource that is put again, under whatever name and parent: all that said its old name says the new one, it is taken
/// from its old siblings and put among its new ones, and nothing else of the grid changes.
pub fn a_resource_is_put_again()
    ensures { (deltas : List Delta) (c d : Cat) (row old : ResourceRow) → apply_all empty_cat deltas ≡ Ok c → resource c row.id ≡ Some old →
        apply c (Delta.Resource row) ≡ Ok d →
        let g = renamed_grid old.name row.name (grid_of c) in
        grid_of d ≡ record g { resources = with_resource (without_resource g.resources row.name) row.name (resource_of d row) } }
{}
