ghost use Rattle.std.specs.Prelude.{◌≡◌, ◌∷◌, ◌++◌, IsTrue, IfOk};
ghost use Rattle.grid_model.specs.Applying.{IsMade};
ghost use Rattle.grid_model.specs.RowGrids.{grid_of, resource_name};
ghost use Rattle.grid_model.specs.Rows.{has_resource};
ghost use Rattle.grid_model.specs.Trees.{hierarchy};
ghost use Rattle.grid_model.specs.Writable.{is_word};

use crate::upward::parent_of;
use grid_model::Text;
use grid_tables::{Kind, Tables};
use std::alloc::{AllocError, Global};

/// The names from its root down to a leaf, with `;` between them, which may stand as a word in a reply. Fails for want of memory alone.
pub fn hierarchy(alloc: Global, tables: &Tables, leaf: u32) -> Result<Text, AllocError>
    requires made { IsMade tables.now }
    requires leaf { IsTrue (has_resource tables.now leaf) }
    ensures text { IfOk result (λ text. text ≡ hierarchy (grid_of tables.now).resources (resource_name tables.now leaf)) }
    ensures word { IfOk result (λ text. IsTrue (is_word text)) }
{
    let mut line = name_of(tables, leaf).to_vec(alloc)?;
    let mut current = leaf;
    for _step in 0..tables.count(Kind::Resources) {
        match parent_of(tables, current) {
            None => return Ok(Text::from_vec(line)),
            Some(parent) => {
                line = above(alloc, name_of(tables, parent), line.as_slice())?;
                current = parent;
            }
        }
    }
    Ok(Text::from_vec(line))
}

// The name, and behind it the line of what stands below.
fn above(alloc: Global, name: &[u8], below: &[u8]) -> Result<Vec<u8>, AllocError>
    ensures { IfOk result (λ line. line.items ≡ name.now ++ 0x3B ∷ below.now) }
{
    let mut line = name.to_vec(alloc)?;
    line.push(b';')?;
    line.extend_from_slice(below)?;
    Ok(line)
}

// The name of the resource with this id; no bytes where there is none.
fn name_of(tables: &Tables, id: u32) -> &[u8]
    ensures { result.now ≡ resource_name tables.now id }
{
    match tables.resource(id) {
        None => &[],
        Some(row) => row.name.as_slice(),
    }
}
