//! Names: which are given, and which binding one means.
ghost use Rattle.std.specs.Prelude.{◌≡◌, [], map, is_some};
ghost use Rattle.token.specs.Views.{view, lexeme_view};
ghost use Rattle.term.specs.Terms.{term_of};
ghost use Rattle.cat.specs.Placing.{tokens_of, bound_of};
ghost use Rattle.cat.specs.Scopes.{name_of, name_at, beside, given_as, latest, names_of, name_term, among};

use std::alloc::Global;
use term::{Given, Term};
use token::{Lexeme, Token};

/// The given names with what they stand for: sets, then relations.
const GIVEN: [(&[u8], Given); 13] = [
    (b"R", Given::Reads),
    (b"W", Given::Writes),
    (b"F", Given::Fences),
    (b"B", Given::Branches),
    (b"M", Given::Memory),
    (b"IW", Given::Initial),
    (b"FW", Given::Settled),
    (b"po", Given::ProgramOrder),
    (b"rf", Given::ReadsFrom),
    (b"loc", Given::SameLocation),
    (b"ext", Given::OtherThread),
    (b"id", Given::Identity),
    (b"co", Given::Coherence),
];

/// The bytes of a name; none of another token.
fn name_of<'a>(token: Token<'a>) -> &'a [u8]
    ensures { result.now ≡ name_of (view token.entry) }
{
    if let Token::Name(bytes) = token {
        bytes
    } else {
        b""
    }
}

/// What stands beside a name in a table.
fn beside(table: &[(&[u8], Given)], name: &[u8]) -> Option<Given>
    ensures { result ≡ beside name.now (map (λ e. (e.0.now, e.1)) table.entry.now) }
{
    table
        .iter()
        .find(|entry| name == entry.0)
        .map(|entry| entry.1)
}

/// What is given under a name.
fn given_as(name: &[u8]) -> Option<Given>
    ensures { result ≡ given_as name.now }
{
    beside(&GIVEN, name)
}

/// Whether something is given under a name.
pub(crate) fn is_given(name: &[u8]) -> bool
    ensures { result ≡ is_some (given_as name.now) }
{
    given_as(name).is_some()
}

/// The tokens of a text, and the names that are bound so far, by their tokens.
#[derive(Drop)]
pub(crate) struct Scope<'a> {
    pub(crate) heap: Global,
    pub(crate) lexemes: &'a [Lexeme<'a>],
    pub(crate) bound: Vec<usize>,
}

impl<'a> Scope<'a> {
    /// The tokens of a text, where nothing is bound yet.
    pub(crate) fn new(heap: Global, lexemes: &'a [Lexeme<'a>]) -> Scope<'a>
        ensures tokens { tokens_of result ≡ map lexeme_view lexemes.now }
        ensures bound { bound_of result ≡ [] }
    {
        Scope {
            heap,
            lexemes,
            bound: Vec::new(heap),
        }
    }

    /// The bytes of the name at a token; none where no name stands.
    pub(crate) fn name_at(&self, token: usize) -> &'a [u8]
        ensures { result.now ≡ name_at (tokens_of self.now) token }
    {
        self.lexemes
            .get(token)
            .map_or(b"", |lexeme| name_of(lexeme.token))
    }

    /// The number of the latest of some names that is this one; they are listed by their tokens.
    fn latest(&self, names: &[usize], name: &[u8]) -> Option<usize>
        ensures { result ≡ latest name.now (names_of (tokens_of self.now) names.now) }
    {
        names.iter().rposition(|token| name == self.name_at(*token))
    }

    /// Whether a name is among those at some tokens.
    pub(crate) fn is_among(&self, names: &[usize], name: &[u8]) -> bool
        ensures { result ≡ among name.now (names_of (tokens_of self.now) names.now) }
    {
        self.latest(names, name).is_some()
    }

    /// What the name at a token means.
    pub(crate) fn name_term(&self, token: usize) -> Term
        ensures { term_of result ≡ name_term token (name_at (tokens_of self.now) token) (names_of (tokens_of self.now) (bound_of self.now)) }
    {
        let name = self.name_at(token);
        if let Some(given) = given_as(name) {
            return Term::Given(given);
        }
        match self.latest(self.bound.as_slice(), name) {
            Some(number) => Term::Bound(token, number),
            None => Term::Unbound(token),
        }
    }
}
