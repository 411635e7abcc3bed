use grid_model::{Level, Path, Text};

/// What metadata is of: an object or a collection by its path, or a resource, a user or a group by its name. It need not be
/// there.
#[derive(Debug, Drop)]
pub enum Subject {
    Object(Path),
    Collection(Path),
    Resource(Text),
    User(Text),
}

/// A piece of metadata, with the texts as they stand in the call.
#[derive(Debug, Drop)]
pub struct Triple<'c> {
    pub of: Subject,
    pub attribute: &'c Text,
    pub value: &'c Text,
    pub unit: &'c Text,
}

/// What a call of a micro-service asks for, with names as they stand in the call.
#[derive(Debug, Drop)]
pub enum Service<'c> {
    /// It does nothing.
    Nothing,
    MkDir {
        path: Path,
    },
    RmDir {
        path: Path,
    },
    Mv {
        from: Path,
        to: Path,
    },
    Repl {
        path: Path,
        resource: &'c Text,
    },
    ChkSum {
        path: Path,
    },
    Copy {
        from: Path,
        to: Path,
        resource: &'c Text,
    },
    Trim {
        path: Path,
        resource: &'c Text,
    },
    Rm {
        path: Path,
    },
    AddMeta(Triple<'c>),
    RmMeta(Triple<'c>),
    /// The level of the user or the group of this name at the path.
    ChMod {
        level: Level,
        name: &'c Text,
        path: Path,
    },
    /// An argument that is to be a path is none. `at` is the length of its longest first part that begins a path.
    NoPath {
        at: u64,
    },
}
