//! What plans of operations share: what the rows have at a path, who may do what, and the access of new items.
#![tactic(auto)]

mod entries;
mod finding;
mod fixed;
mod forget;
mod ids;
mod names;
mod room;
mod users;

pub use entries::{hands_on, push_new_entries};
pub use finding::{collection_above, entry_level, is_taken, item_at, kind_and_id, may_at};
pub use fixed::{is_fixed, zone_name};
pub use forget::push_forgotten;
pub use ids::{next_collection_id, next_object_id, next_resource_id, next_user_id};
pub use names::{digest_is_kept, name_is_text};
pub use room::{has_room, within};
pub use users::{is_admin, is_group, is_person, kind_named};
