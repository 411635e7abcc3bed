ghost use Rattle.std.specs.Prelude.{◌≡◌};
ghost use Rattle.grid_model.specs.Queries.{is_number, is_comparison};

use crate::{Items, Text};

/// What a query shows and looks at, under the name that it has in the text of a query.
#[derive(Clone, Copy, Debug, PartialEq, Eq)]
pub enum Column {
    /// `COLL_NAME`, the path of a collection.
    CollName,
    /// `DATA_NAME`, the last name of an object's path.
    DataName,
    /// `META_DATA_ATTR_NAME`, the attribute of a triple.
    MetaDataAttrName,
    /// `META_DATA_ATTR_VALUE`, its value.
    MetaDataAttrValue,
    /// `META_DATA_ATTR_UNITS`, its unit.
    MetaDataAttrUnits,
    /// `DATA_MODIFY_TIME`, when the object was last written: a number.
    DataModifyTime,
    /// `DATA_SIZE`, the bytes of a replica: a number.
    DataSize,
    /// `DATA_REPL_NUM`, the number of a replica.
    DataReplNum,
    /// `DATA_REPL_STATUS`, 1 for a good replica and 0 for a stale one.
    DataReplStatus,
    /// `DATA_RESC_HIER`, the resources from the root down to a replica's leaf.
    DataRescHier,
    /// `DATA_CHECKSUM`, the printed checksum of a replica.
    DataChecksum,
}

impl Column {
    /// Whether it is printed as a number in decimal.
    pub fn is_number(self) -> bool
        ensures { result ≡ is_number self }
    {
        matches!(
            self,
            Column::DataModifyTime | Column::DataSize | Column::DataReplNum | Column::DataReplStatus
        )
    }
}

/// How a condition compares a column with its literal.
#[derive(Clone, Copy, Debug, PartialEq, Eq)]
pub enum Op {
    /// `=`
    Equal,
    /// `<>`
    NotEqual,
    /// `<`
    Less,
    /// `>`
    Greater,
    /// `<=`
    AtMost,
    /// `>=`
    AtLeast,
    /// `like`
    Like,
    /// `not like`
    NotLike,
}

impl Op {
    /// Whether it compares, and matches no pattern.
    pub fn is_comparison(self) -> bool
        ensures { result ≡ is_comparison self }
    {
        !matches!(self, Op::Like | Op::NotLike)
    }
}

/// A condition: the column compared with the literal.
#[derive(Debug, Drop)]
pub struct Cond {
    pub column: Column,
    pub op: Op,
    /// Without its quotes.
    pub literal: Text,
}

/// A list of columns.
pub type Columns = Items<Column>;

/// A list of conditions.
pub type Conds = Items<Cond>;

/// A query: the columns of its rows, and the conditions that all have to hold.
#[derive(Debug, Drop)]
pub struct Query {
    pub columns: Columns,
    pub conds: Conds,
}
