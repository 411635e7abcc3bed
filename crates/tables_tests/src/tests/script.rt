//! Changes and look-ups at tables, each with what it shows.

use super::answers::show;
use super::owning::{KINDS, Part, try_part};
use grid_tables::Tables;
use std::alloc::Global;
use std::process::Abort;
use std::test::Fail;

// Zones that do not fit, and then a small grid: rods and alice, and `public`, which rods is in; `/`, `/z`, `/z/home` and
// `/z/home/rods`, in which are the objects o with a replica on d0, p with a triple, q with an entry, and r; in `/` the
// collection e with an entry and t with a triple; the node top with its leaf d0 on slot 0, the leaf d1 on slot 1, and an
// orphan there.
const SMALL_GRID: &str = "zone - 2 = BadDelta { cause: 1 }
zone a/b 2 = BadDelta { cause: 1 }
zone .. 2 = BadDelta { cause: 1 }
zone z 0 = BadDelta { cause: 1 }
zone z 17 = BadDelta { cause: 1 }
zone z 2
numbers 5
user 2 rodsgroup public
user 1 rodsadmin rods
user 3 rodsuser alice
member 2 1
collection 0 0 -
collection 1 0 z
collection 2 1 home
collection 3 2 rods
collection 4 0 e
collection 5 0 t
entry collection 4 3 read
triple collection 5 a b -
resource replication 1 top 0 0 0
resource storage 2 d0 0 1 0
resource storage 3 d1 1 0 0
orphan 2 1
object 1 3 o
object 2 3 p
object 3 3 q
object 4 3 r
replica 1 0 2 1
entry object 3 1 own
triple object 2 a b -";

// What does not fit the small grid.
const REFUSED: &str = "zone y 1 = BadDelta { cause: 1 }
user 1 rodsuser new = BadDelta { cause: 2 }
user 9 rodsuser rods = BadDelta { cause: 2 }
user 9 rodsuser public = BadDelta { cause: 2 }
user 9 rodsuser - = BadDelta { cause: 2 }
member 9 3 = BadDelta { cause: 3 }
member 2 9 = BadDelta { cause: 3 }
member 1 3 = BadDelta { cause: 3 }
member 2 2 = BadDelta { cause: 3 }
member 2 1 = BadDelta { cause: 3 }
no_member 2 3 = BadDelta { cause: 4 }
no_member 9 1 = BadDelta { cause: 4 }
no_member 2 9 = BadDelta { cause: 4 }
no_member 3 1 = BadDelta { cause: 4 }
collection 9 8 n = BadDelta { cause: 5 }
collection 9 9 n = BadDelta { cause: 5 }
collection 2 2 home = BadDelta { cause: 5 }
collection 1 2 z = BadDelta { cause: 5 }
collection 1 3 z = BadDelta { cause: 5 }
collection 9 1 home = BadDelta { cause: 5 }
collection 9 3 o = BadDelta { cause: 5 }
collection 9 1 .. = BadDelta { cause: 5 }
collection 0 1 - = BadDelta { cause: 5 }
collection 0 0 r = BadDelta { cause: 5 }
no_collection 9 = BadDelta { cause: 6 }
no_collection 0 = BadDelta { cause: 6 }
no_collection 1 = BadDelta { cause: 6 }
no_collection 3 = BadDelta { cause: 6 }
no_collection 4 = BadDelta { cause: 6 }
no_collection 5 = BadDelta { cause: 6 }
object 9 9 n = BadDelta { cause: 7 }
object 9 3 o = BadDelta { cause: 7 }
object 9 1 home = BadDelta { cause: 7 }
object 1 3 p = BadDelta { cause: 7 }
object 9 3 . = BadDelta { cause: 7 }
no_object 9 = BadDelta { cause: 8 }
no_object 1 = BadDelta { cause: 8 }
no_object 2 = BadDelta { cause: 8 }
no_object 3 = BadDelta { cause: 8 }
replica 9 0 2 3 = BadDelta { cause: 9 }
replica 1 1 9 3 = BadDelta { cause: 9 }
replica 1 1 1 3 = BadDelta { cause: 9 }
replica 1 1 2 3 = BadDelta { cause: 9 }
replica 2 0 3 1 = BadDelta { cause: 9 }
replica 2 0 3 2 = BadDelta { cause: 9 }
replica 2 0 3 0 = BadDelta { cause: 9 }
replica 2 0 3 5 = BadDelta { cause: 9 }
no_replica 1 1 = BadDelta { cause: 10 }
no_replica 2 0 = BadDelta { cause: 10 }
orphan 1 0 = BadDelta { cause: 17 }
orphan 2 0 = BadDelta { cause: 17 }
orphan 0 0 = BadDelta { cause: 17 }
orphan 5 0 = BadDelta { cause: 17 }
orphan 3 2 = BadDelta { cause: 17 }
no_orphan 1 = BadDelta { cause: 18 }
triple object 9 a b - = BadDelta { cause: 11 }
triple collection 9 a b - = BadDelta { cause: 11 }
triple resource 9 a b - = BadDelta { cause: 11 }
triple user 9 a b - = BadDelta { cause: 11 }
triple object 2 a b - = BadDelta { cause: 11 }
no_triple object 9 a b - = BadDelta { cause: 12 }
no_triple object 2 a c - = BadDelta { cause: 12 }
no_triple collection 2 a b - = BadDelta { cause: 12 }
entry object 9 1 read = BadDelta { cause: 13 }
entry collection 9 1 read = BadDelta { cause: 13 }
entry object 1 9 read = BadDelta { cause: 13 }
entry resource 1 1 read = BadDelta { cause: 13 }
entry user 1 1 read = BadDelta { cause: 13 }
entry object 1 1 null = BadDelta { cause: 13 }
no_entry object 3 3 = BadDelta { cause: 14 }
no_entry collection 3 1 = BadDelta { cause: 14 }
resource storage 0 n 0 0 0 = BadDelta { cause: 15 }
resource storage 9 d0 0 0 0 = BadDelta { cause: 15 }
resource storage 9 - 0 0 0 = BadDelta { cause: 15 }
resource storage 9 n 2 0 0 = BadDelta { cause: 15 }
resource random 9 n 1 0 0 = BadDelta { cause: 15 }
resource storage 9 n 0 8 0 = BadDelta { cause: 15 }
resource storage 9 n 0 3 0 = BadDelta { cause: 15 }
resource storage 9 n 0 1 0 = BadDelta { cause: 15 }
resource storage 9 n 0 0 1 = BadDelta { cause: 15 }
resource storage 1 top 0 0 0 = BadDelta { cause: 15 }
resource random 1 top 0 0 0 = BadDelta { cause: 15 }
resource replication 1 top 0 1 1 = BadDelta { cause: 15 }
resource replication 9 n 0 9 0 = BadDelta { cause: 15 }
numbers 0 = BadDelta { cause: 19 }
numbers 4 = BadDelta { cause: 19 }
pending 9 = BadDelta { cause: 20 }
pending 2 = BadDelta { cause: 20 }
no_pending = BadDelta { cause: 21 }";

// What the small grid has by user, by leaf and by path, and the ids that are free.
const LOOK_UPS: &str = "?groups 1 = (1, Some(GroupOfUser { user: 1, group: 2 }))
?groups 3 = (0, None)
?open 1 = (1, Some(AccessOfUser { user: 1, kind: Object, id: 3 }))
?open 2 = (0, None)
?on 2 = (1, Some(ReplicaOnLeaf { leaf: 2, object: 1, number: 0 }))
?on 3 = (0, None)
?next = ((Some(4), Some(4)), (Some(6), Some(5)))
?is_empty 0 = false
?is_empty 1 = false
?is_empty 3 = false
?is_empty 4 = true
?is_empty 9 = true
?path collection 0 = /
?path collection 1 = /z
?path collection 3 = /z/home/rods
?path object 1 = /z/home/rods/o
?path object 9 = /
?path resource 1 = /
?path user 1 = /
?at / = (Some(0), None)
?at /z/home = (Some(2), None)
?at /z/home/rods/q = (None, Some(3))
?at /home = (None, None)
?at /z/home/rods/o/o = (None, None)";

// Triples that come and go. An item stands once for each value of an attribute, and a value once for each attribute that has it;
// it is the item's until the last triple with it goes, whatever the units.
const TRIPLES: &str = "?with a = [2, 5]
?with a b = [2, 5]
?with a c = []
?with d = []
?with d b = []
?with d c = []
triple object 2 a c -
?with a = [2, 5, 2]
?with a b = [2, 5]
?with a c = [2]
?with d = []
?with d b = []
?with d c = []
triple object 2 d b -
?with a = [2, 5, 2]
?with a b = [2, 5]
?with a c = [2]
?with d = [2]
?with d b = [2]
?with d c = []
triple object 2 a b kg
?with a = [2, 5, 2]
?with a b = [2, 5]
?with a c = [2]
?with d = [2]
?with d b = [2]
?with d c = []
no_triple object 2 a b -
?with a = [2, 5, 2]
?with a b = [2, 5]
?with a c = [2]
?with d = [2]
?with d b = [2]
?with d c = []
no_triple object 2 a b kg
?with a = [5, 2]
?with a b = [5]
?with a c = [2]
?with d = [2]
?with d b = [2]
?with d c = []
no_triple object 2 d b -
?with a = [5, 2]
?with a b = [5]
?with a c = [2]
?with d = []
?with d b = []
?with d c = []
no_triple object 2 a c -
?with a = [5]
?with a b = [5]
?with a c = []
?with d = []
?with d b = []
?with d c = []";

// Rows in the place of others: a replica that goes to another leaf, a collection and an object that move, and access that is given
// anew.
const MOVED: &str = "replica 1 0 3 1
?on 2 = (0, None)
?on 3 = (1, Some(ReplicaOnLeaf { leaf: 3, object: 1, number: 0 }))
orphan 3 0
collection 2 4 moved
?path object 1 = /e/moved/rods/o
object 1 0 o
?path object 1 = /o
?counts = (4, [0, 1, 2, 3, 4, 5])
entry object 3 2 read
entry object 3 1 write
?access object 3 = [EntryRow { kind: Object, id: 3, user: 1, level: Write }, EntryRow { kind: Object, id: 3, user: 2, level: Read }]
?access collection 3 = []";

fn play_line(rt: &impl Abort, alloc: Global, tables: &mut Tables, line: &str) -> Result<(), Fail> {
    let (call, wanted) = line.split_once(" = ").unwrap_or((line, ""));
    let shown = show(alloc, tables, call)?;
    assert_eq!(rt; shown.as_str(), wanted, "{call}");
    Ok(())
}

/// Plays all lines, over tables without rows.
pub(crate) fn play(rt: &impl Abort, alloc: Global, tables: &mut Tables) -> Result<(), Fail> {
    for text in [SMALL_GRID, REFUSED, LOOK_UPS, TRIPLES, MOVED] {
        for line in text.split('\n') {
            play_line(rt, alloc, tables, line)?;
        }
    }
    Ok(())
}

#[test]
fn changes_and_look_ups_of_a_small_grid(rt: HostRuntime) -> Result<(), Fail> {
    let mut done = [0; KINDS];
    try_part(&rt, rt.alloc(), Part::SmallGrid, &mut done)
}
