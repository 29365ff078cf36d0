//! Sorts of tokens: what stands somewhere, names and titles without their bytes.

// No token of token's `Token` with an empty payload: each name in the grammar, and in what is said of it, would carry a `()`.
// Nor one enum of the 25 fixed tokens within both: each of those names would stand in a second case, as in `Fixed(Let)`, and the
// cases of the public `Token` would change, all to spare the 25 arms of cat's `sort_of`.
/// The sort of a token.
#[derive(Clone, Copy, PartialEq, Eq, Debug)]
pub enum Sort {
    Name,
    Title,
    Let,
    Rec,
    And,
    Acyclic,
    Irreflexive,
    Empty,
    Flag,
    As,
    Universe,
    NoPairs,
    NoEvents,
    Inverse,
    Open,
    Close,
    OpenSquare,
    CloseSquare,
    Bar,
    Semicolon,
    Backslash,
    Ampersand,
    Star,
    Tilde,
    Plus,
    Question,
    Equals,
}
