ghost use Rattle.std.specs.Prelude.{◌≡◌};
ghost use Rattle.rule_lex.specs.Symbols.{symbol_text};

/// A word or a sign of the language.
#[derive(Clone, Copy, Debug, PartialEq, Eq)]
pub enum Symbol {
    /// `on`
    On,
    /// `like`
    Like,
    /// `true`
    True,
    /// `false`
    False,
    /// `(`
    OpenParenthesis,
    /// `)`
    CloseParenthesis,
    /// `{`
    OpenBrace,
    /// `}`
    CloseBrace,
    /// `,`
    Comma,
    /// `;`
    Semicolon,
    /// `:::`
    Recovery,
    /// `++`
    Join,
    /// `==`
    Equal,
    /// `!=`
    NotEqual,
    /// `<=`
    AtMost,
    /// `>=`
    AtLeast,
    /// `<`
    Less,
    /// `>`
    Greater,
    /// `&&`
    And,
    /// `||`
    Or,
    /// `!`
    Not,
}

/// What a token is.
#[derive(Debug, Drop)]
pub enum Value<'a> {
    /// A name of 1 to 255 bytes: a letter or `_`, and letters, digits and `_`, but no word of the language.
    Name(&'a [u8]),
    /// A parameter, by its name without the `*`.
    Param(&'a [u8]),
    /// A session variable, by its name without the `$`.
    Session(&'a [u8]),
    /// A number.
    Number(i64),
    /// A text, with each escaped byte for itself and without its quotes.
    Text(Vec<u8>),
    /// A word or a sign of the language.
    Symbol(Symbol),
}

/// A token of a text.
#[derive(Debug, Drop)]
pub struct Token<'a> {
    /// Its first byte's place in the text, from 0 on.
    pub at: usize,
    /// Its bytes in the text.
    pub spelled: &'a [u8],
    /// What it is.
    pub value: Value<'a>,
}

/// The tokens of a text, in its order.
pub type Tokens<'a> = Vec<Token<'a>>;
