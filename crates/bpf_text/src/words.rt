//! What a word of assembly text is: a register's name, a keyword, a number, or any other name.

ghost use Rattle.std.specs.Prelude.{◌≡◌};
ghost use Rattle.std.specs.Option.{option_copied};
ghost use Rattle.bpf_text.specs.Line.{name_of};
ghost use Rattle.bpf_text.specs.Words.{number_tok, word_tok};
ghost use Rattle.bpf_text.specs.Private.Look.{look};

use crate::token::Token;
use bpf_lines::words::{Numeral, begins_with_digit, numeral_of};
use bpf_spelling::{keywords, registers};

fn number_token<'a>(word: &'a [u8]) -> Token<'a>
    ensures { look result ≡ number_tok word.now }
{
    match numeral_of(word) {
        Some(Numeral { radix, digits }) => Token::Number(radix, digits),
        None => Token::Junk,
    }
}

/// What the word is.
#[tactic(auto, unfolding(crate::specs::Words::word_tok))]
pub fn classify<'a>(word: &'a [u8]) -> Token<'a>
    ensures { look result ≡ word_tok word.now }
{
    if begins_with_digit(word) {
        number_token(word)
    } else if let Some((width, register)) = registers::register_named(word) {
        Token::Register(width, register)
    } else if let Some(keyword) = keywords::keyword_named(word) {
        Token::Word(keyword)
    } else {
        Token::Name(word)
    }
}

/// The name that a word is: any word that doesn't begin with a digit.
pub fn name<'a>(token: &Token<'a>) -> Option<&'a [u8]>
    ensures { option_copied result ≡ name_of (look token.now) }
{
    match token {
        Token::Register(width, register) => Some(registers::register_text(
            *width, *register,
        ).as_bytes()),
        Token::Word(keyword) => Some(keyword.text().as_bytes()),
        Token::Name(name) => Some(*name),
        Token::Number(..) | Token::Mark(_) | Token::Junk => None,
    }
}
