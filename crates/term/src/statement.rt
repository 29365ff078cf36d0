//! Statements whose names are resolved.
use super::term::Term;
use sentence::sign::Word;

/// A bound name by its token, whether it is one that cannot be bound there (it is given, or bound before in its group),
/// and what it is bound to.
#[derive(Drop)]
pub struct Binding {
    pub token: usize,
    pub taken: bool,
    pub term: Term,
}

/// The mark of a check, with the bytes of its label.
pub type Mark = sentence::statement::Mark<Vec<u8>>;

/// A check: its word by its token too.
#[derive(Drop)]
pub struct Check {
    pub mark: Mark,
    pub negated: bool,
    pub token: usize,
    pub word: Word,
    pub term: Term,
}

/// A let, a let rec group, or a check.
#[derive(Drop)]
pub enum Statement {
    Let(Binding),
    Group(Vec<Binding>),
    Check(Check),
}
