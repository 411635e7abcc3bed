ghost use Rattle.rule_lex.specs.Symbols.{symbol_text};
ghost use Rattle.rule_parse.specs.Grammar.{sign_of};
ghost use Rattle.std.specs.Prelude.{◌≡◌};

use grid_model::Operator;
use rule_lex::Symbol;

/// The bytes of a word or a sign.
pub fn spelling(symbol: Symbol) -> &'static [u8]
    ensures { result.now ≡ symbol_text symbol }
{
    match symbol {
        Symbol::On => b"on",
        Symbol::Like => b"like",
        Symbol::True => b"true",
        Symbol::False => b"false",
        Symbol::OpenParenthesis => b"(",
        Symbol::CloseParenthesis => b")",
        Symbol::OpenBrace => b"{",
        Symbol::CloseBrace => b"}",
        Symbol::Comma => b",",
        Symbol::Semicolon => b";",
        Symbol::Recovery => b":::",
        Symbol::Join => b"++",
        Symbol::Equal => b"==",
        Symbol::NotEqual => b"!=",
        Symbol::AtMost => b"<=",
        Symbol::AtLeast => b">=",
        Symbol::Less => b"<",
        Symbol::Greater => b">",
        Symbol::And => b"&&",
        Symbol::Or => b"||",
        Symbol::Not => b"!",
    }
}

/// The word or the sign of an operator.
pub fn sign_of(operator: Operator) -> Symbol
    ensures { result ≡ sign_of operator }
{
    match operator {
        Operator::Or => Symbol::Or,
        Operator::And => Symbol::And,
        Operator::Equal => Symbol::Equal,
        Operator::NotEqual => Symbol::NotEqual,
        Operator::Less => Symbol::Less,
        Operator::Greater => Symbol::Greater,
        Operator::AtMost => Symbol::AtMost,
        Operator::AtLeast => Symbol::AtLeast,
        Operator::Like => Symbol::Like,
        Operator::Join => Symbol::Join,
    }
}
