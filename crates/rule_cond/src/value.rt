use grid_model::Text;

/// What an expression is, by its type.
#[derive(Debug, Drop)]
pub enum Value {
    Text(Text),
    /// A number of a rule is one of 64 bits with sign, and a size one of 64 bits without.
    Number(i128),
    Truth(bool),
}
