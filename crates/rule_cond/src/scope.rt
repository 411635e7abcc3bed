use grid_model::{Text, Texts};

/// What the session variables of a point are made of.
#[derive(Debug, Drop)]
pub struct Env {
    /// `$userNameClient`
    pub user: Text,
    /// `$objPath`
    pub obj: Text,
    /// `$collName`
    pub coll: Text,
    /// `$rescName`
    pub resc: Text,
    /// How many bytes are put, where something is.
    pub put_size: Option<u64>,
}

/// Where the expressions of a rule stand.
#[derive(Clone, Copy)]
pub struct Scope<'a> {
    pub env: &'a Env,
    /// The parameters of the rule.
    pub params: &'a Texts,
    /// Their arguments. A parameter without one is an empty text.
    pub args: &'a Texts,
    /// `$dataSize` in bytes: what is put, and else the recorded size of the object at `$objPath` as it is now, 0 where
    /// there is none.
    pub size: u64,
}
