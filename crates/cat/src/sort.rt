//! Sorts of tokens, as the grammar takes them.
ghost use Rattle.std.specs.Prelude.{◌≡◌, map, IfOk};
ghost use Rattle.token.specs.Views.{view, lexeme_view};
ghost use Rattle.cat.specs.Sorts.{sort_of, sorts_of};

use sentence::Sort;
use std::alloc::{AllocError, Global};
use token::{Lexeme, Token};

/// The sort of a token.
fn sort_of<'a>(token: Token<'a>) -> Sort
    ensures { result ≡ sort_of (view token.entry) }
{
    match token {
        Token::Name(_) => Sort::Name,
        Token::Title(_) => Sort::Title,
        Token::Let => Sort::Let,
        Token::Rec => Sort::Rec,
        Token::And => Sort::And,
        Token::Acyclic => Sort::Acyclic,
        Token::Irreflexive => Sort::Irreflexive,
        Token::Empty => Sort::Empty,
        Token::Flag => Sort::Flag,
        Token::As => Sort::As,
        Token::Universe => Sort::Universe,
        Token::NoPairs => Sort::NoPairs,
        Token::NoEvents => Sort::NoEvents,
        Token::Inverse => Sort::Inverse,
        Token::Open => Sort::Open,
        Token::Close => Sort::Close,
        Token::OpenSquare => Sort::OpenSquare,
        Token::CloseSquare => Sort::CloseSquare,
        Token::Bar => Sort::Bar,
        Token::Semicolon => Sort::Semicolon,
        Token::Backslash => Sort::Backslash,
        Token::Ampersand => Sort::Ampersand,
        Token::Star => Sort::Star,
        Token::Tilde => Sort::Tilde,
        Token::Plus => Sort::Plus,
        Token::Question => Sort::Question,
        Token::Equals => Sort::Equals,
    }
}

/// The sorts of tokens.
pub(crate) fn sorts<'a>(heap: Global, lexemes: &[Lexeme<'a>]) -> Result<Vec<Sort>, AllocError>
    ensures { IfOk result (λ v. v.items ≡ sorts_of (map lexeme_view lexemes.now)) }
{
    lexemes
        .iter()
        .map(|lexeme| sort_of(lexeme.token))
        .collect(heap)
}
