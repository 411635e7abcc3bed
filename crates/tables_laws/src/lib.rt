//! Laws of the catalogues that deltas make of the empty one. The functions do nothing: their contracts are the laws.
#![tactic(auto)]

mod laws;

pub use laws::{
    a_collection_is_changed, a_collection_is_moved, a_collection_is_removed, a_member_is_added,
    a_member_is_removed, a_new_collection_is_put, a_new_object_is_put, a_new_resource_is_put,
    a_replica_is_put, a_replica_is_removed, a_resource_becomes_a_child, a_resource_is_changed,
    a_resource_is_put_again, a_triple_is_added, a_triple_is_removed, a_user_is_put,
    a_zone_names_the_grid, access_is_put, access_is_removed, an_object_is_changed,
    an_object_is_moved, an_object_is_removed, deltas_keep_tables, deltas_keep_ties,
    deltas_make_trees, rules_leave_the_grid, the_root_is_put, unseen_deltas_leave_the_grid,
};
