//! Statements whose names are resolved.
ghost use Rattle.std.specs.Prelude.{◌≡◌, ◌+◌, ◌^◌, ◌<◌, map, length, IfOk};
ghost use Rattle.sentence.specs.Exprs.{tree_of};
ghost use Rattle.sentence.specs.Statements.{trees_of, mark_of as said_mark, statement_of as said_statement, sentence_of};
ghost use Rattle.sentence.specs.Trees.{binds, groups, checks, spell_statement, spell_text};
ghost use Rattle.term.specs.Statements.{statements_of};
ghost use Rattle.token.specs.Views.{lexeme_view};
ghost use Rattle.cat.specs.Placing.{tokens_of, bound_of, StatementPlaced};
ghost use Rattle.cat.specs.Resolving.{resolved_statements};

use super::binding::bind_group;
use super::mark::{before_word, behind_term};
use super::scope::Scope;
use sentence::statement::{Binding as SaidBinding, Check as SaidCheck, Statement as Said};
use sentence::{Expr, Placed, Sentence};
use std::alloc::{AllocError, Global};
use term::Statement;
use term::statement::Check;
use token::Lexeme;

impl<'a> Scope<'a> {
    /// A let that begins at a token; its name is bound behind it.
    fn let_statement(&mut self, at: usize, tree: &Expr) -> Result<Placed<Statement>, AllocError>
        requires { at + length (spell_statement (binds (tree_of tree.now))) < 2 ^ 64 }
        ensures placed { IfOk result (λ p. StatementPlaced (tokens_of self.old) (bound_of self.old) (bound_of self.new) at (binds (tree_of tree.now)) p) }
        ensures tokens { tokens_of self.new ≡ tokens_of self.old }
    {
        let placed = self.binding(&[], at + 1, tree)?;
        self.bound.push(at + 1)?;
        Ok(placed.map(|binding| Statement::Let(binding)))
    }

    /// A let rec group that begins at a token; its names are bound in it and behind it.
    fn group_statement(
        &mut self,
        at: usize,
        first: &Expr,
        more: &[SaidBinding],
    ) -> Result<Placed<Statement>, AllocError>
        requires { at + length (spell_statement (groups (tree_of first.now) (trees_of more.now))) < 2 ^ 64 }
        ensures placed { IfOk result (λ p. StatementPlaced (tokens_of self.old) (bound_of self.old) (bound_of self.new) at (groups (tree_of first.now) (trees_of more.now)) p) }
        ensures tokens { tokens_of self.new ≡ tokens_of self.old }
    {
        bind_group(&mut self.bound, at + 2, first, more)?;
        let placed = self.group(at + 2, first, more)?;
        Ok(placed.map(|bindings| Statement::Group(bindings)))
    }

    /// A check that begins at a token.
    fn check_statement(&self, at: usize, check: &SaidCheck) -> Result<Placed<Statement>, AllocError>
        requires { at + length (spell_statement (checks (said_mark check.now.mark) check.now.negated check.now.word (tree_of check.now.tree))) + 1 < 2 ^ 64 }
        ensures { IfOk result (λ p. StatementPlaced (tokens_of self.now) (bound_of self.now) (bound_of self.now) at (checks (said_mark check.now.mark) check.now.negated check.now.word (tree_of check.now.tree)) p) }
    {
        let token = at + before_word(check.mark, check.negated);
        let placed = self.resolve(token + 1, &check.tree)?;
        let next = placed.next + behind_term(check.mark);
        let mark = self.labelled(placed.next + 1, check.mark)?;
        Ok(Placed {
            item: Statement::Check(Check {
                mark,
                negated: check.negated,
                token,
                word: check.word,
                term: placed.item,
            }),
            next,
        })
    }

    /// A statement that begins at a token; the names that it binds are bound behind it.
    fn statement(&mut self, at: usize, said: &Said) -> Result<Placed<Statement>, AllocError>
        requires { at + length (spell_statement (said_statement said.now)) + 1 < 2 ^ 64 }
        ensures placed { IfOk result (λ p. StatementPlaced (tokens_of self.old) (bound_of self.old) (bound_of self.new) at (said_statement said.now) p) }
        ensures tokens { tokens_of self.new ≡ tokens_of self.old }
    {
        match said {
            Said::Let(said) => self.let_statement(at, &said.tree),
            Said::Group(first, more) => self.group_statement(at, &first.tree, more.as_slice()),
            Said::Check(check) => self.check_statement(at, check),
        }
    }
}

/// The statements of a sentence that is written with these tokens.
pub(crate) fn statements<'a>(
    heap: Global,
    lexemes: &'a [Lexeme<'a>],
    sentence: &Sentence,
) -> Result<Vec<Statement>, AllocError>
    requires { length (spell_text (sentence_of sentence.now)) + 1 < 2 ^ 64 }
    ensures { IfOk result (λ v. statements_of v.items ≡ resolved_statements (map lexeme_view lexemes.now) (sentence_of sentence.now)) }
{
    let mut scope = Scope::new(heap, lexemes);
    let mut found: Vec<Statement> = Vec::new(heap);
    let mut at = usize::from(sentence.titled);
    for said in &sentence.statements {
        let placed = scope.statement(at, said)?;
        found.push(placed.item)?;
        at = placed.next;
    }
    Ok(found)
}
