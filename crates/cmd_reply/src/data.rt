ghost use Rattle.std.specs.Prelude.{◌≡◌, ◌++◌, OnOk};
ghost use Rattle.grid_model.specs.DataLines.{data_line, data_lines};

use crate::parts::push_number;
use std::alloc::AllocError;

/// How many bytes a data line has at most.
const PART_SIZE: usize = 65_536;

/// Adds the bytes as data lines.
pub fn push_data_lines(text: &mut Vec<u8>, number: u64, bytes: &[u8]) -> Result<(), AllocError>
    ensures { OnOk result (text.new.items ≡ text.old.items ++ data_lines number bytes.now) }
{
    let mut rest = bytes;
    while !rest.is_empty() {
        let (part, behind) = rest.split_at(rest.len().min(PART_SIZE));
        push_data_line(text, number, part)?;
        rest = behind;
    }
    Ok(())
}

fn push_data_line(text: &mut Vec<u8>, number: u64, part: &[u8]) -> Result<(), AllocError>
    ensures { OnOk result (text.new.items ≡ text.old.items ++ data_line number part.now) }
{
    push_number(text, number)?;
    text.extend_from_slice(b" data ")?;
    push_number(text, part.len() as u64)?;
    text.push(b'\n')?;
    text.extend_from_slice(part)?;
    text.push(b'\n')?;
    Ok(())
}
