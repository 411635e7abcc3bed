ghost use Rattle.std.specs.Prelude.{◌≡◌, ◌↔◌, ◌^◌, ◌<◌, ℕ, List, Result, Some, decimal};
ghost use Rattle.grid_model.specs.Names.{Text};
ghost use Rattle.cmd_read.specs.Reading.{Reads};
ghost use Rattle.cmd_read.specs.Table.{number_of};
ghost use Rattle.cmd_read.specs.declared.error.ReadError.{ReadError};
ghost use Rattle.grid_model.specs.declared.requests.Request.{Request};

/// No words are read in two ways.
pub fn words_are_read_once()
    ensures { (words : List Text) (one other : Result Request ReadError) → Reads words one → Reads words other → one ≡ other }
{}

/// All words are read, or are refused for a reason other than memory.
pub fn all_words_are_read()
    ensures { (words : List Text) → (answer : Result Request ReadError) × Reads words answer }
{}

/// The number of a word is the one below 2^64 that is written so in decimal.
pub fn numbers_are_decimal()
    ensures { (word : Text) (number : ℕ) → (number_of word ≡ Some number) ↔ ((word ≡ decimal number) × (number < 2 ^ 64)) }
{}
