use crate::{Call, Failure, Items, Marks, Refusal, Text, Texts};

/// A recovery that was refused, and its failure as it is printed.
#[derive(Debug, Drop)]
pub struct Passed {
    pub call: Call,
    pub failure: Text,
}

/// A list of refused recoveries.
pub type Passeds = Items<Passed>;

/// A list of rows, each a list of words.
pub type Rows = Items<Texts>;

/// How a command ended.
#[derive(Debug, Drop)]
pub enum End {
    /// It was done, and says these words.
    Done(Texts),
    Refused(Refusal),
    /// The rules of the point before it failed.
    PreFailed(Failure),
    /// It was done, and the rules of the point after it failed.
    PostFailed(Failure),
    /// The called rule failed.
    Failed(Failure),
    /// The server stopped in it.
    Stopped,
}

/// All that is answered to a request. `shown` is the text that is sent as data lines.
#[derive(Debug, Drop)]
pub struct Reply {
    pub marks: Marks,
    pub shown: Text,
    pub passed: Passeds,
    pub rows: Rows,
    pub end: End,
}
