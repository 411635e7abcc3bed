use grid_model::{Call, Delta, Mark, Passed, Pending, Text};

/// How many bytes a change has at most, but for its texts and the members of its lists.
const CHANGE: usize = 80;

/// How many bytes a member of a list has at most, but for its texts and the members of its lists.
const MEMBER: usize = 56;

/// Room for the spellings of these changes. It only saves memory from being taken again and again while they are
/// written: what it says decides no answer.
pub fn room_for(deltas: &[Delta]) -> usize {
    let mut room: usize = 0;
    for delta in deltas {
        room = room.saturating_add(CHANGE).saturating_add(variable(delta));
    }
    room
}

/// Room for the texts and the members of a change.
fn variable(delta: &Delta) -> usize {
    match delta {
        Delta::Zone { name: text, .. } | Delta::Rules { text } => len(text),
        Delta::User(row) => len(&row.name),
        Delta::Collection(row) => len(&row.name),
        Delta::Object(row) => len(&row.name),
        Delta::Resource(row) => len(&row.name),
        Delta::Triple(row) | Delta::NoTriple(row) => len(&row.attribute)
            .saturating_add(len(&row.value))
            .saturating_add(len(&row.unit)),
        Delta::Pending(row) => pending(row),
        _ => 0,
    }
}

/// Room for the texts and the members of a command that is not done.
fn pending(row: &Pending) -> usize {
    let mut room = len(&row.line);
    for mark in row.marks.as_slice() {
        room = room.saturating_add(marked(mark));
    }
    for passed in row.passed.as_slice() {
        room = room.saturating_add(refused(passed));
    }
    for call in row.undo.as_slice() {
        room = room.saturating_add(called(call));
    }
    row.running
        .as_ref()
        .map_or(room, |call| room.saturating_add(called(call)))
}

/// Room for a mark.
fn marked(mark: &Mark) -> usize {
    match mark {
        Mark::Ran { bad, .. } => bad
            .as_slice()
            .len()
            .saturating_add(1)
            .saturating_mul(MEMBER),
        _ => MEMBER,
    }
}

/// Room for a refused recovery.
fn refused(passed: &Passed) -> usize {
    called(&passed.call)
        .saturating_add(MEMBER)
        .saturating_add(len(&passed.failure))
}

/// Room for a call.
fn called(call: &Call) -> usize {
    let mut room = len(&call.name).saturating_add(MEMBER);
    for arg in call.args.as_slice() {
        room = room.saturating_add(MEMBER).saturating_add(len(arg));
    }
    room
}

/// How many bytes a text has.
fn len(text: &Text) -> usize {
    text.as_slice().len()
}
