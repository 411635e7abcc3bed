//! Laws of the changes that go with the making and the removal of files. The functions do nothing: their contracts are the laws.
#![tactic(auto)]

mod laws;

pub use laws::{
    a_list_of_changes_is_split, a_lost_replica_is_forgotten, a_new_object_is_put_on_leaves,
    a_plan_follows_staged_changes, a_replica_is_trimmed, a_resource_keeps_its_slot,
    an_object_gets_copies, an_object_gets_replicas, an_object_goes, an_object_is_written_over,
    changes_follow, changes_make_no_file, changes_name_no_file, gone_files_are_forgotten,
    replicas_are_dropped, replicas_become_stale,
};
