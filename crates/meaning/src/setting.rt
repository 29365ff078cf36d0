//! The values of terms.
ghost use Rattle.std.specs.Prelude.{◌++◌, map, slice_index_or};
ghost use Rattle.relation.specs.Relations.{Never};
ghost use Rattle.relation.specs.Values.{of_pairs, Means};
ghost use Rattle.term.specs.Terms.{term_of};
ghost use Rattle.given.specs.Bases.{base_meaning};
ghost use Rattle.meaning.specs.Meanings.{meaning};
ghost use Rattle.meaning.specs.Tables.{value_meaning, relation_meaning};

use super::operate::{infixed, outside, postfixed, tested};
use given::Base;
use given::base::value;
use relation::{Relation, Value};
use term::Term;

/// What terms are evaluated by: what is given, and the values of bindings that are known.
#[derive(Clone, Copy)]
pub struct Setting<'a> {
    pub base: &'a Base,
    pub known: &'a [Value],
}

impl<'a> Setting<'a> {
    /// The value of a bound name by its number: one that is known, or behind those one that is found; else nothing.
    fn named(&self, found: &[Relation], number: usize) -> Value
        ensures { Means result (slice_index_or (map value_meaning self.now.known.now ++ map relation_meaning found.now) number (of_pairs Never)) }
    {
        self.known.get(number).copied().unwrap_or_else(|| {
            let relation = found.get(number - self.known.len()).copied();
            Value::pairs(relation.unwrap_or(Relation::none()))
        })
    }

    /// The value of a term, by what is given, the values that are known and, numbered on, the relations that are found.
    pub fn evaluate(&self, found: &[Relation], term: &Term) -> Value
        ensures { Means result (meaning (base_meaning self.now.base.now) (map value_meaning self.now.known.now ++ map relation_meaning found.now) (term_of term.now)) }
    {
        let universe = self.base.universe;
        match term {
            Term::Given(given) => value(self.base, *given),
            Term::Bound(_, number) => self.named(found, *number),
            Term::Unbound(_) => Value::pairs(Relation::none()),
            Term::Test(_, inside) => tested(self.evaluate(found, inside)),
            Term::Complement(inside) => outside(universe, self.evaluate(found, inside)),
            Term::Ended(_, sign, inside) => {
                postfixed(universe, *sign, self.evaluate(found, inside))
            }
            Term::Joined(_, sign, left, right) => infixed(
                *sign,
                self.evaluate(found, left),
                self.evaluate(found, right),
            ),
        }
    }
}
