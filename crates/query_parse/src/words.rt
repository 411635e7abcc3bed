ghost use Rattle.std.specs.Prelude.{◌≡◌, ◌≢◌, ◌<◌, ◌≤◌, length, take, drop, slice_index, IsTrue, MatchOption, false};
ghost use Rattle.std.specs.List.{list_all};
ghost use Rattle.std.specs.Str.{str_eq_ignore_ascii_case};
ghost use Rattle.grid_model.specs.QueryTokens.{Keyword as Word, keyword_text, column_text, is_identifier_byte, goes_on, SpellsQueryWord, Front as Begins};
ghost use Rattle.grid_model.specs.declared.queries.Column.{Column};
ghost use Rattle.query_parse.specs.Seen.{keyword_meant, meaning};

use crate::front::Front;
use crate::token::{Keyword, Kind};
use grid_model::Column;

/// An ASCII letter, a digit or `_`.
pub fn is_word_byte(byte: u8) -> bool
    ensures { result ≡ is_identifier_byte byte }
{
    matches!(byte, b'A'..=b'Z' | b'a'..=b'z' | b'0'..=b'9' | b'_')
}

/// How many letters, digits and `_` stand at the front.
fn word_len(bytes: &[u8]) -> usize
    ensures within { result ≤ length bytes.now }
    ensures word { IsTrue (list_all is_identifier_byte (take result bytes.now)) }
    ensures ends { goes_on is_identifier_byte (drop result bytes.now) ≡ false }
{
    let mut len = 0;
    while len < bytes.len() && is_word_byte(bytes[len]) {
        len += 1;
    }
    len
}

/// The keyword that a word is.
fn keyword_of(word: &[u8]) -> Option<Keyword>
    ensures { MatchOption result
        ((k : Word) → ¬ IsTrue (str_eq_ignore_ascii_case word.now (keyword_text k)))
        (λ k. IsTrue (str_eq_ignore_ascii_case word.now (keyword_text (keyword_meant k)))) }
{
    if word.eq_ignore_ascii_case(b"SELECT") {
        Some(Keyword::Select)
    } else if word.eq_ignore_ascii_case(b"WHERE") {
        Some(Keyword::Where)
    } else if word.eq_ignore_ascii_case(b"AND") {
        Some(Keyword::And)
    } else if word.eq_ignore_ascii_case(b"LIKE") {
        Some(Keyword::Like)
    } else if word.eq_ignore_ascii_case(b"NOT") {
        Some(Keyword::Not)
    } else {
        None
    }
}

/// The column that a word names.
fn column_of(word: &[u8]) -> Option<Column>
    ensures { MatchOption result ((c : Column) → word.now ≢ column_text c) (λ c. word.now ≡ column_text c) }
{
    if word == b"COLL_NAME".as_slice() {
        Some(Column::CollName)
    } else if word == b"DATA_NAME".as_slice() {
        Some(Column::DataName)
    } else if word == b"META_DATA_ATTR_NAME".as_slice() {
        Some(Column::MetaDataAttrName)
    } else if word == b"META_DATA_ATTR_VALUE".as_slice() {
        Some(Column::MetaDataAttrValue)
    } else if word == b"META_DATA_ATTR_UNITS".as_slice() {
        Some(Column::MetaDataAttrUnits)
    } else if word == b"DATA_MODIFY_TIME".as_slice() {
        Some(Column::DataModifyTime)
    } else if word == b"DATA_SIZE".as_slice() {
        Some(Column::DataSize)
    } else if word == b"DATA_REPL_NUM".as_slice() {
        Some(Column::DataReplNum)
    } else if word == b"DATA_REPL_STATUS".as_slice() {
        Some(Column::DataReplStatus)
    } else if word == b"DATA_RESC_HIER".as_slice() {
        Some(Column::DataRescHier)
    } else if word == b"DATA_CHECKSUM".as_slice() {
        Some(Column::DataChecksum)
    } else {
        None
    }
}

/// The token that a word is.
fn kind_of(word: &[u8]) -> Kind
    ensures { SpellsQueryWord word.now (meaning result) }
{
    match keyword_of(word) {
        Some(keyword) => return Kind::Keyword(keyword),
        None => match column_of(word) {
            Some(column) => return Kind::Column(column),
            None => return Kind::Wrong,
        },
    }
}

/// The word at the front of what begins with a letter, a digit or `_`.
pub fn word<'a>(text: &'a [u8]) -> Front<'a>
    requires { IsTrue (goes_on is_identifier_byte text.now) }
    ensures { Begins text.now (meaning result.kind) result.rest.now }
{
    let len = word_len(text);
    Front {
        kind: kind_of(&text[..len]),
        rest: &text[len..],
    }
}
