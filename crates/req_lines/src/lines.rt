ghost use Rattle.std.specs.Prelude.{◌≡◌, ◌<◌, IfSome, length, position};
ghost use Rattle.grid_model.specs.Lines.{is_blank, is_request};
ghost use Rattle.req_lines.specs.Reading.{is_newline};

/// How many bytes a request line has at most, without its newline.
const LONGEST_LINE: usize = 4096;

/// The place of the first newline.
pub(crate) fn newline_in(bytes: &[u8]) -> Option<usize>
    ensures place { result ≡ position is_newline bytes.now }
    ensures within { IfSome result (λ n. n < length bytes.now) }
{
    bytes.iter().position(|byte| *byte == b'\n')
}

/// Whether the line is a request: it has words, or is too long to look for them.
pub(crate) fn is_request(line: &[u8]) -> bool
    ensures { result ≡ is_request line.now }
{
    !is_blank(line) || line.len() > LONGEST_LINE
}

fn is_blank(line: &[u8]) -> bool
    ensures { result ≡ is_blank line.now }
{
    line.iter().all(|byte| *byte == b' ')
}
