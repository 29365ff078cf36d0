//! Statements and sentences.
use super::sign::Word;
use super::tree::Expr;

/// A name, by its place, and its expression.
#[derive(Drop)]
pub struct Binding {
    pub name: usize,
    pub tree: Expr,
}

/// A check has neither flag nor label, a label, or a flag and a label.
#[derive(Clone, Copy, Drop, PartialEq, Eq, Debug)]
pub enum Mark<L> {
    Plain,
    Labelled(L),
    Flagged(L),
}

/// A check; its mark has the place of its label.
#[derive(Drop)]
pub struct Check {
    pub mark: Mark<usize>,
    pub negated: bool,
    pub word: Word,
    pub tree: Expr,
}

/// A statement: a let, a let rec group, or a check.
#[derive(Drop)]
pub enum Statement {
    Let(Binding),
    Group(Binding, Vec<Binding>),
    Check(Check),
}

/// A whole text.
#[derive(Drop)]
pub struct Sentence {
    pub titled: bool,
    pub statements: Vec<Statement>,
}
