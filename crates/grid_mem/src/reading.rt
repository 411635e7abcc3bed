ghost use Rattle.grid_outside.specs.Disk.{ReadsAt};

// Fills the buffer from this place up to the end of the bytes, and answers how many bytes it gave.
pub(crate) fn read_at(bytes: &[u8], at: u64, buf: &mut [u8]) -> usize
    ensures { ReadsAt bytes.now at result buf.new }
{
    if at >= bytes.len() as u64 {
        return 0;
    }
    let rest = &bytes[at as usize..];
    let count = rest.len().min(buf.len());
    buf[..count].copy_from_slice(&rest[..count]);
    count
}
