ghost use Rattle.reply_reader.specs.Written.{WrittenIsSpelled};

/// What is written of a reply, its marks line by line with a get's bytes before them and then the lines that follow the
/// marks, spells just this reply. So `read_reply` gives it back.
pub fn written_replies_are_spelled()
    ensures { WrittenIsSpelled }
{}
