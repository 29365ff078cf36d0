//! Pieces: what stands at the beginning of the rest of a text.
ghost use Rattle.std.specs.Prelude.{◌≡◌, ◌&&◌, not, take, position, Some, ◌==◌, slice_index};
ghost use Rattle.std.specs.Str.{bytes_eq};
ghost use Rattle.token.specs.Items.{goes_on, run, quote_from, end_from, word_of, titled, commented, when, single, opened, signed, item_of};
ghost use Rattle.token.specs.Lexing.{token};
ghost use Rattle.token.specs.Tokens.{no_events, inverse};
ghost use Rattle.token.specs.Views.{view, gap, word, token_view, piece_view, parted};

use super::class::{Class, class_of};
use super::token::Token;

/// A stretch at the beginning of a text: its token, or none for a blank or a comment, and how many bytes it has.
#[derive(Clone, Copy, PartialEq, Eq, Debug)]
pub struct Piece<'a> {
    pub token: Option<Token<'a>>,
    pub length: usize,
}

/// A blank or a comment.
fn gap<'a>(length: usize) -> Piece<'a>
    ensures { piece_view (Some result) ≡ gap length }
{
    Piece {
        token: None,
        length,
    }
}

/// A token.
fn word<'a>(token: Token<'a>, length: usize) -> Piece<'a>
    ensures { piece_view (Some result) ≡ word (view token.entry) length }
{
    Piece {
        token: Some(token),
        length,
    }
}

/// Whether a name can go on with the byte.
fn goes_on(byte: u8) -> bool
    ensures { result ≡ goes_on byte }
{
    matches!(class_of(byte), Class::Letter | Class::Digit | Class::Mark)
}

/// The place of the first byte with which a name cannot go on.
fn name_end(text: &[u8]) -> Option<usize>
    ensures { result ≡ position (λ b. not (goes_on b)) text.now }
{
    text.iter().position(|byte| !goes_on(*byte))
}

/// The place of the first quote.
fn quote(text: &[u8]) -> Option<usize>
    ensures { result ≡ position (λ b. b == 34) text.now }
{
    text.iter().position(|byte| *byte == b'"')
}

/// The place of the first `*)`.
fn comment_end(text: &[u8]) -> Option<usize>
    ensures { result ≡ end_from 0 text.now }
{
    text.windows(2).position(|pair| pair == b"*)".as_slice())
}

/// Whether two stretches of bytes are the same.
fn is(bytes: &[u8], word: &[u8]) -> bool
    ensures { result ≡ bytes_eq bytes.now word.now }
{
    bytes == word
}

// A chain of tests and no table: each length is known, where a search of a table took twice as long on short names.
/// The reserved word that is so written, or the name.
fn word_of<'a>(bytes: &'a [u8]) -> Token<'a>
    ensures { view result ≡ word_of bytes.now }
{
    if is(bytes, b"let") {
        Token::Let
    } else if is(bytes, b"rec") {
        Token::Rec
    } else if is(bytes, b"and") {
        Token::And
    } else if is(bytes, b"acyclic") {
        Token::Acyclic
    } else if is(bytes, b"irreflexive") {
        Token::Irreflexive
    } else if is(bytes, b"empty") {
        Token::Empty
    } else if is(bytes, b"flag") {
        Token::Flag
    } else if is(bytes, b"as") {
        Token::As
    } else {
        Token::Name(bytes)
    }
}

/// A word: a name or a reserved word.
fn word_piece<'a>(text: &'a [u8]) -> Piece<'a>
    ensures { piece_view (Some result) ≡ parted (Some (token (word_of (take (run 0 text.now) text.now)))) }
{
    let length = name_end(text).unwrap_or(text.len());
    word(word_of(&text[..length]), length)
}

/// The title that ends at the first quote behind the opening one.
fn title_piece<'a>(behind: &'a [u8]) -> Option<Piece<'a>>
    ensures { piece_view result ≡ parted (titled (quote_from 0 behind.now) behind.now) }
{
    let end = quote(behind)?;
    Some(word(Token::Title(&behind[..end]), end + 2))
}

/// The comment that ends at the first `*)` behind its `(*`.
fn comment_piece<'a>(behind: &'a [u8]) -> Option<Piece<'a>>
    ensures { piece_view result ≡ parted (commented (end_from 0 behind.now) behind.now) }
{
    let end = comment_end(behind)?;
    Some(gap(end + 4))
}

/// What begins at a `(`: a comment or the token.
fn open_piece<'a>(behind: &'a [u8]) -> Option<Piece<'a>>
    ensures { piece_view result ≡ parted (opened behind.now) }
{
    match behind.strip_prefix(b"*") {
        Some(inside) => comment_piece(inside),
        None => Some(word(Token::Open, 1)),
    }
}

/// The token that a `{` begins.
fn brace_piece<'a>(behind: &'a [u8]) -> Option<Piece<'a>>
    ensures { piece_view result ≡ parted (when (slice_index behind.now 0 == 125) no_events) }
{
    behind.starts_with(b"}").then_some(word(Token::NoEvents, 2))
}

/// The token that a `^` begins.
fn caret_piece<'a>(behind: &'a [u8]) -> Option<Piece<'a>>
    ensures { piece_view result ≡ parted (when (slice_index behind.now 0 == 45 && slice_index behind.now 1 == 49) inverse) }
{
    behind.starts_with(b"-1").then_some(word(Token::Inverse, 3))
}

/// The token of a single sign.
fn single<'a>(byte: u8) -> Option<Token<'a>>
    ensures { token_view result 1 ≡ parted (single byte) }
{
    match byte as char {
        ')' => Some(Token::Close),
        '[' => Some(Token::OpenSquare),
        ']' => Some(Token::CloseSquare),
        '|' => Some(Token::Bar),
        ';' => Some(Token::Semicolon),
        '\\' => Some(Token::Backslash),
        '&' => Some(Token::Ampersand),
        '*' => Some(Token::Star),
        '~' => Some(Token::Tilde),
        '+' => Some(Token::Plus),
        '?' => Some(Token::Question),
        '=' => Some(Token::Equals),
        _ => None,
    }
}

/// What begins with a sign.
fn sign_piece<'a>(byte: u8, behind: &'a [u8]) -> Option<Piece<'a>>
    ensures { piece_view result ≡ parted (signed byte behind.now) }
{
    match byte as char {
        '"' => title_piece(behind),
        '(' => open_piece(behind),
        '{' => brace_piece(behind),
        '^' => caret_piece(behind),
        _ => Some(word(single(byte)?, 1)),
    }
}

/// What stands at the beginning of the rest of a text, if a piece does.
pub(crate) fn piece_of<'a>(text: &'a [u8]) -> Option<Piece<'a>>
    ensures { piece_view result ≡ parted (item_of text.now) }
{
    let (&byte, behind) = text.split_first()?;
    match class_of(byte) {
        Class::Other => None,
        Class::Blank => Some(gap(1)),
        Class::Letter => Some(word_piece(text)),
        Class::Digit => (byte == b'0').then_some(word(Token::NoPairs, 1)),
        Class::Mark => (byte == b'_').then_some(word(Token::Universe, 1)),
        Class::Sign => sign_piece(byte, behind),
    }
}
