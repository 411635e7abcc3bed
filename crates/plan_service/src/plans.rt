use grid_model::{Deltas, OldFile, OldFiles, Path, Text};

/// What a call of a micro-service does that does not fail at once.
#[derive(Debug, Drop)]
pub enum ServicePlan {
    /// These changes of rows; none where nothing is done.
    Changes(Deltas),
    /// A deed that copies this file of the object at the path to the targets of the resource.
    Repl {
        path: Path,
        resource: Text,
        from: OldFile,
    },
    /// A deed that reads these files of the object at the path.
    Chksum {
        path: Path,
        files: OldFiles,
    },
    /// A deed that copies this file to a new object at the path on the resource.
    Copy {
        from: Path,
        to: Path,
        resource: Text,
        file: OldFile,
    },
}
