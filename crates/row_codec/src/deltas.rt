ghost use Rattle.std.specs.Prelude.{◌≡◌};
ghost use Rattle.row_codec.specs.Reading.{Gives};
ghost use Rattle.row_codec.specs.Rows.{body_of, delta_at};

use crate::commands::pending;
use crate::fields::{Alphabet, coded, text, u64_of};
use crate::rows::{
    collection, entry, member, no_entry, no_replica, numbers, object, orphan, replica, resource,
    triple, user, zone,
};
use crate::stop::Stop;
use crate::tags::Tag;
use grid_model::Delta;
use std::alloc::Global;

/// The change that is made of what was read.
macro_rules! change {
    ($read:expr, $fields:pat => $delta:expr) => {
        match $read {
            Ok(($fields, rest)) => Ok(($delta, rest)),
            Err(stop) => Err(stop),
        }
    };
}

/// The change at the front, and the bytes behind it.
#[tactic(auto, unfolding(crate::specs::Rows::delta_at, crate::specs::Reading::and_then))]
pub fn delta(alloc: Global, bytes: &[u8]) -> Result<(Delta, &[u8]), Stop>
    ensures { Gives (λ x. (x.0, x.1.now)) result (delta_at bytes.now) }
{
    let (tag, rest) = coded(bytes)?;
    body(alloc, tag, rest)
}

/// What stands behind the tag.
#[tactic(auto, unfolding(crate::specs::Rows::body_of, crate::specs::Reading::and_then, crate::specs::Reading::give))]
fn body(alloc: Global, tag: Tag, bytes: &[u8]) -> Result<(Delta, &[u8]), Stop>
    ensures { Gives (λ x. (x.0, x.1.now)) result (body_of tag bytes.now) }
{
    match tag {
        Tag::Zone => change!(zone(alloc, bytes), (name, stores) => Delta::Zone { name, stores }),
        Tag::User => change!(user(alloc, bytes), row => Delta::User(row)),
        Tag::Member => change!(member(bytes), row => Delta::Member(row)),
        Tag::NoMember => change!(member(bytes), row => Delta::NoMember(row)),
        Tag::Collection => change!(collection(alloc, bytes), row => Delta::Collection(row)),
        Tag::NoCollection => change!(u64_of(bytes), id => Delta::NoCollection { id }),
        Tag::Object => change!(object(alloc, bytes), row => Delta::Object(row)),
        Tag::NoObject => change!(u64_of(bytes), id => Delta::NoObject { id }),
        Tag::Replica => change!(replica(bytes), row => Delta::Replica(row)),
        Tag::NoReplica =>
            change!(no_replica(bytes), (object, number) => Delta::NoReplica { object, number }),
        Tag::Triple => change!(triple(alloc, bytes), row => Delta::Triple(row)),
        Tag::NoTriple => change!(triple(alloc, bytes), row => Delta::NoTriple(row)),
        Tag::Entry => change!(entry(bytes), row => Delta::Entry(row)),
        Tag::NoEntry =>
            change!(no_entry(bytes), (kind, id, user) => Delta::NoEntry { kind, id, user }),
        Tag::Resource => change!(resource(alloc, bytes), row => Delta::Resource(row)),
        Tag::Rules => change!(text(alloc, Alphabet::Rules, bytes), text => Delta::Rules { text }),
        Tag::Orphan => change!(orphan(bytes), row => Delta::Orphan(row)),
        Tag::NoOrphan => change!(u64_of(bytes), vault => Delta::NoOrphan { vault }),
        Tag::Numbers => change!(numbers(bytes), row => Delta::Numbers(row)),
        Tag::Pending => change!(pending(alloc, bytes), row => Delta::Pending(row)),
        Tag::NoPending => Ok((Delta::NoPending, bytes)),
    }
}
