//! Checks: whether one holds, and what comes of trying all of a model.
ghost use Rattle.std.specs.Prelude.{◌≡◌, map, option_map, Decides};
ghost use Rattle.term.specs.Statements.{mark_of, claim_of, statement_of, statements_of};
ghost use Rattle.given.specs.Bases.{base_meaning};
ghost use Rattle.meaning.specs.Checks.{Nothing, Asked, is_flag};
ghost use Rattle.meaning.specs.Tables.{value_meaning};
ghost use Rattle.meaning.specs.Outcomes.{Good, claim_in, Totalled, WithinLimits, Judged};

use super::bindings::evaluate_bindings;
use super::operate::pairs_in;
use super::outcome::Outcome;
use super::setting::Setting;
use super::values::Values;
use given::Base;
use relation::{Kind, Value, mask};
use sentence::sign::Word;
use term::Statement;
use term::statement::{Check, Mark};

/// How many checks are tried.
const MOST_CHECKS: u8 = 16;

/// Whether the mark is a flag.
pub fn is_flag(mark: &Mark) -> bool
    ensures { result ≡ is_flag (mark_of mark.now) }
{
    matches!(mark, Mark::Flagged(_))
}

/// Whether a value has nothing in it.
fn is_nothing(value: Value) -> bool
    ensures { Decides result (Nothing (value_meaning value)) }
{
    match value.kind {
        Kind::Events => mask::is_empty(value.mask),
        Kind::Pairs => value.relation().is_empty(),
    }
}

/// Whether a value is as the word of a check asks.
fn is_as_asked(word: Word, value: Value) -> bool
    ensures { Decides result (Asked word (value_meaning value)) }
{
    match word {
        Word::Acyclic => pairs_in(value).is_acyclic(),
        Word::Irreflexive => pairs_in(value).is_irreflexive(),
        Word::Empty => is_nothing(value),
    }
}

/// Whether a check holds, where the bindings have these values.
pub fn holds(setting: &Setting<'_>, check: &Check) -> bool
    ensures { Decides result (Good (base_meaning setting.now.base.now) (map value_meaning setting.now.known.now) (claim_of check.now)) }
{
    let asked = is_as_asked(check.word, setting.evaluate(&[], &check.term));
    asked != check.negated
}

/// The check of a statement, if it is one.
fn check_in(statement: &Statement) -> Option<&Check>
    ensures { option_map (λ check. claim_of check.now) result ≡ claim_in (statement_of statement.now) }
{
    match statement {
        Statement::Check(check) => Some(check),
        _ => None,
    }
}

/// The outcome of the checks, where the bindings have these values.
fn try_all(setting: &Setting<'_>, statements: &[Statement]) -> Outcome
    ensures { Totalled (base_meaning setting.now.base.now) (map value_meaning setting.now.known.now) (statements_of statements.now) result }
{
    let mut outcome = Outcome::default();
    let checks = statements.iter().filter_map(check_in);
    for (number, check) in (0..MOST_CHECKS).zip(checks) {
        outcome = outcome.with(number, is_flag(&check.mark), holds(setting, check));
    }
    outcome
}

/// What comes of trying the checks of a model by what is given: the first without flag that does not hold, and a bit for
/// each flag that holds. The values are working space.
pub fn try_checks(base: &Base, statements: &[Statement], values: &mut Values) -> Outcome
    ensures { WithinLimits (statements_of statements.now) → Judged (base_meaning base.now) (statements_of statements.now) result }
{
    evaluate_bindings(base, statements, values);
    try_all(&values.under(base), statements)
}
