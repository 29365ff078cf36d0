//! The values of the bindings of a model, in text order.
ghost use Rattle.std.specs.Prelude.{◌+◌, ◌≤◌, ◌++◌, map, length};
ghost use Rattle.term.specs.Statements.{groups, binding_of, statement_of, statements_of};
ghost use Rattle.meaning.specs.Tables.{value_meaning, relation_meaning, AllMean};
ghost use Rattle.meaning.specs.Knowns.{Added, Known};

use super::solving::solve;
use super::values::{ROOM, Values};
use given::Base;
use relation::{Relation, Value};
use term::Statement;
use term::statement::Binding;

/// Puts relations behind the values that are known.
fn put(found: &[Relation], values: &mut Values)
    ensures { length values.old + length found.now ≤ 64 → AllMean values.new (map value_meaning values.old ++ map relation_meaning found.now) }
{
    for relation in found {
        values.push(Value::pairs(*relation));
    }
}

/// Puts the least solution of a let rec group behind the values that are known. What comes past the 64th is left out.
// Never inlined: the table of what is found is cleared where it is made, and lets and checks need none.
#[inline(never)]
fn add_group(base: &Base, bindings: &[Binding], values: &mut Values)
    ensures { Added base.now (groups (map binding_of bindings.now)) values.old values.new }
{
    let found = solve(&values.under(base), bindings);
    put(&found[..bindings.len().min(ROOM)], values);
}

// The base and the values stay two parameters: the one is read, the other written, and `under` joins them where a term is evaluated.
/// Puts the values of a statement's bindings behind those that are known: of a let that of its term, of a let rec group its
/// least solution. What comes past the 64th is left out.
fn add_statement(base: &Base, statement: &Statement, values: &mut Values)
    ensures { Added base.now (statement_of statement.now) values.old values.new }
{
    match statement {
        Statement::Let(binding) => {
            // No value is kept past the 64th, so no term is looked at there.
            let many = values.as_slice().len();
            if many < ROOM {
                let value = values.under(base).evaluate(&[], &binding.term);
                values.push(value);
            }
        }
        Statement::Group(bindings) => add_group(base, bindings.as_slice(), values),
        Statement::Check(_) => {}
    }
}

/// Leaves the values of the bindings of all statements, by their numbers: all of them, if they are at most 64.
pub fn evaluate_bindings(base: &Base, statements: &[Statement], values: &mut Values)
    ensures { Known base.now (statements_of statements.now) values.new }
{
    values.clear();
    for statement in statements {
        add_statement(base, statement, values);
    }
}
