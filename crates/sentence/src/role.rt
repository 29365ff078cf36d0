//! Roles: what a sort can do where it stands.
ghost use Rattle.std.specs.Prelude.{◌≡◌};
ghost use Rattle.sentence.specs.Roles.{role};

use super::sign::*;
use super::sort::Sort;

/// What begins an atom.
#[derive(Clone, Copy, PartialEq, Eq, Debug)]
pub enum Start {
    Leaf(Leaf),
    Opens(Bracket),
}

/// What goes on behind an expression.
#[derive(Clone, Copy, PartialEq, Eq, Debug)]
pub enum Go {
    Closes(Bracket),
    Joins(Infix),
    Ends(Post),
}

/// What is a word of statements.
#[derive(Clone, Copy, PartialEq, Eq, Debug)]
pub enum Speech {
    Titles,
    Lets,
    Recs,
    Ands,
    Flags,
    Labels,
    Equals,
    Words(Word),
}

/// The role of a sort.
#[derive(Clone, Copy, PartialEq, Eq, Debug)]
pub enum Role {
    Starts(Start),
    Goes(Go),
    Complements,
    Speaks(Speech),
}

/// The role of each sort; a star is told apart later.
pub(crate) fn role_of(sort: Sort) -> Role
    ensures { result ≡ role sort }
{
    match sort {
        Sort::Name => Role::Starts(Start::Leaf(Leaf::Name)),
        Sort::Title => Role::Speaks(Speech::Titles),
        Sort::Let => Role::Speaks(Speech::Lets),
        Sort::Rec => Role::Speaks(Speech::Recs),
        Sort::And => Role::Speaks(Speech::Ands),
        Sort::Acyclic => Role::Speaks(Speech::Words(Word::Acyclic)),
        Sort::Irreflexive => Role::Speaks(Speech::Words(Word::Irreflexive)),
        Sort::Empty => Role::Speaks(Speech::Words(Word::Empty)),
        Sort::Flag => Role::Speaks(Speech::Flags),
        Sort::As => Role::Speaks(Speech::Labels),
        Sort::Universe => Role::Starts(Start::Leaf(Leaf::Universe)),
        Sort::NoPairs => Role::Starts(Start::Leaf(Leaf::NoPairs)),
        Sort::NoEvents => Role::Starts(Start::Leaf(Leaf::NoEvents)),
        Sort::Inverse => Role::Goes(Go::Ends(Post::Inverse)),
        Sort::Open => Role::Starts(Start::Opens(Bracket::Round)),
        Sort::Close => Role::Goes(Go::Closes(Bracket::Round)),
        Sort::OpenSquare => Role::Starts(Start::Opens(Bracket::Square)),
        Sort::CloseSquare => Role::Goes(Go::Closes(Bracket::Square)),
        Sort::Bar => Role::Goes(Go::Joins(Infix::Bar)),
        Sort::Semicolon => Role::Goes(Go::Joins(Infix::Semicolon)),
        Sort::Backslash => Role::Goes(Go::Joins(Infix::Backslash)),
        Sort::Ampersand => Role::Goes(Go::Joins(Infix::Ampersand)),
        Sort::Star => Role::Goes(Go::Joins(Infix::Product)),
        Sort::Tilde => Role::Complements,
        Sort::Plus => Role::Goes(Go::Ends(Post::Plus)),
        Sort::Question => Role::Goes(Go::Ends(Post::Question)),
        Sort::Equals => Role::Speaks(Speech::Equals),
    }
}
