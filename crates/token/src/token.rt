//! Tokens. Names and titles borrow the text.

/// A token of a model text.
#[derive(Clone, Copy, PartialEq, Eq, Debug)]
pub enum Token<'a> {
    /// A name that is no reserved word.
    Name(&'a [u8]),
    /// A title: the bytes between its quotes.
    Title(&'a [u8]),
    Let,
    Rec,
    And,
    Acyclic,
    Irreflexive,
    Empty,
    Flag,
    As,
    /// `_`, all events.
    Universe,
    /// `0`, the empty relation.
    NoPairs,
    /// `{}`, the empty set.
    NoEvents,
    /// `^-1`.
    Inverse,
    Open,
    Close,
    OpenSquare,
    CloseSquare,
    Bar,
    Semicolon,
    Backslash,
    Ampersand,
    Star,
    Tilde,
    Plus,
    Question,
    Equals,
}

/// A token and its place, that of its first byte.
#[derive(Clone, Copy, PartialEq, Eq, Debug)]
pub struct Lexeme<'a> {
    pub token: Token<'a>,
    pub place: usize,
}
