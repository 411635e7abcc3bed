ghost use Rattle.std.specs.Prelude.{◌≡◌, ◌+◌, ◌≤◌, length, take, drop, slice_range};
ghost use Rattle.grid_model.specs.DataLines.{data_line};

use itoa::write_digits;

/// Room for the words of a data line: a number of at most 20 digits, a count of at most 5, and what stands between
/// and behind them.
pub const FRONT: usize = 32;

// What stands between the number and the count.
const DATA: &[u8; 6] = b" data ";

/// Makes a data line of a part that stands behind the room for its words: puts the words in front of it and a newline
/// behind it, and answers where the line begins.
pub fn frame_part(buf: &mut [u8], number: u64, count: usize) -> usize
    requires room { length buf.old ≡ 65569 }
    requires count { count ≤ 65536 }
    ensures start { result ≤ 32 }
    ensures line { slice_range buf.new result (32 + count + 1) ≡ data_line number (take count (drop 32 buf.old)) }
{
    buf[FRONT + count] = b'\n';
    buf[FRONT - 1] = b'\n';
    let count_at = write_digits(count as u64, buf, FRONT - 1);
    let data_at = count_at - DATA.len();
    buf[data_at..count_at].copy_from_slice(DATA);
    write_digits(number, buf, data_at)
}
