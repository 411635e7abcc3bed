/// What a user may do at an item. Each level contains those before it.
#[derive(Clone, Copy, Debug, PartialEq, Eq)]
pub enum Level {
    Null,
    Read,
    Write,
    Own,
}

/// Whether a put makes a new object only, or may also write over one that is there.
#[derive(Clone, Copy, Debug, PartialEq, Eq)]
pub enum Mode {
    New,
    Over,
}

/// What an entry of the users' table is. The last one is a group, which does not log in.
#[derive(Clone, Copy, Debug, PartialEq, Eq)]
pub enum UserKind {
    Rodsadmin,
    Rodsuser,
    Rodsgroup,
}

/// What a resource does. Storage keeps files in its slot's store; the others choose among their children.
#[derive(Clone, Copy, Debug, PartialEq, Eq)]
pub enum ResourceKind {
    Storage,
    Passthru,
    Random,
    Replication,
}

/// What metadata are of.
#[derive(Clone, Copy, Debug, PartialEq, Eq)]
pub enum ItemKind {
    Object,
    Collection,
    Resource,
    User,
}

/// One of the two disks.
#[derive(Clone, Copy, Debug, PartialEq, Eq)]
pub enum Side {
    Main,
    Spare,
}
