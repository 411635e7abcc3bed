use crate::{ItemKind, Level, Mode, Path, ResourceKind, Text, UserKind};

/// What the words of a line ask for, and in which session.
#[derive(Debug, Drop)]
pub struct Request {
    /// 0 to 63.
    pub session: u8,
    pub verb: Verb,
}

/// What a request asks for, with the words of its row of the table. A body is not part of it. No name is looked up, so
/// each may be one of nothing; paths are paths, and the names of a new user, group or resource are names.
#[derive(Debug, Drop)]
pub enum Verb {
    /// The session is this user's from now on.
    Login {
        user: Text,
    },
    /// The session is nobody's from now on.
    Logout,
    /// The run ends.
    Quit,
    /// A new user, a rodsadmin or a rodsuser.
    MkUser {
        name: Text,
        kind: UserKind,
    },
    /// A new group.
    MkGroup {
        name: Text,
    },
    /// The user is in the group from now on.
    AddMember {
        group: Text,
        user: Text,
    },
    /// The user is not in the group from now on.
    RmMember {
        group: Text,
        user: Text,
    },
    /// A new resource that keeps files in the store of this slot.
    MkStorage {
        name: Text,
        slot: u64,
    },
    /// A new resource that chooses among its children: passthru, random or replication.
    MkCoordinating {
        name: Text,
        kind: ResourceKind,
    },
    /// The child is the last of the parent's children from now on.
    AddChild {
        parent: Text,
        child: Text,
    },
    /// The resource is up or down from now on.
    ModResc {
        name: Text,
        up: bool,
    },
    /// The rules are those of a body of so many bytes.
    Rules {
        count: u64,
    },
    /// The text of the rules.
    ShowRules,
    /// Files that no replica has are removed.
    Sweep,
    /// A new collection.
    MkDir {
        path: Path,
    },
    /// The collection goes.
    RmDir {
        path: Path,
    },
    /// The item has another path from now on.
    Mv {
        from: Path,
        to: Path,
    },
    /// What is at the path.
    Ls {
        path: Path,
    },
    /// The user or group of this name has the level at the path.
    ChMod {
        level: Level,
        name: Text,
        path: Path,
    },
    /// New items of the collection get its levels.
    Inherit {
        path: Path,
    },
    /// New items of the collection do not get its levels.
    NoInherit {
        path: Path,
    },
    /// An object with a body of so many bytes, kept on the resource.
    Put {
        path: Path,
        resource: Text,
        mode: Mode,
        count: u64,
    },
    /// An object that is sent in parts, kept on the resource.
    Open {
        path: Path,
        resource: Text,
        mode: Mode,
    },
    /// The next part of the upload, a body of so many bytes.
    Part {
        count: u64,
    },
    /// The upload is put.
    Close,
    /// The upload is given up.
    Abort,
    /// The bytes of the object, from the resource where one is named.
    Get {
        path: Path,
        resource: Option<Text>,
    },
    /// The object gets replicas where the tree of the resource puts them.
    Repl {
        path: Path,
        resource: Text,
    },
    /// The checksum of the object.
    ChkSum {
        path: Path,
    },
    /// The object's replicas at and below the resource go.
    Trim {
        path: Path,
        resource: Text,
    },
    /// The object goes.
    Rm {
        path: Path,
    },
    /// One more triple of an item. Where it is an object or a collection, the name spells a path.
    AddMeta {
        item: ItemKind,
        name: Text,
        attribute: Text,
        value: Text,
        unit: Text,
    },
    /// The triple of the item goes. The name is as for `AddMeta`.
    RmMeta {
        item: ItemKind,
        name: Text,
        attribute: Text,
        value: Text,
        unit: Text,
    },
    /// The triples of the item. The name is as for `AddMeta`.
    LsMeta {
        item: ItemKind,
        name: Text,
    },
    /// What the text of a query finds.
    Query {
        text: Text,
    },
    /// The call of the text is made.
    Exec {
        text: Text,
    },
}
