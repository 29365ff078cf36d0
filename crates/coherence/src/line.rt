//! Laying an order into the rows of a relation, line by line.
ghost use Rattle.std.specs.Prelude.{◌≡◌, ℕ, ◌<◌, length, slice_index};
ghost use Rattle.run.specs.Tests.{table_run};
ghost use Rattle.coherence.specs.Perms.{factorial};
ghost use Rattle.coherence.specs.Lines.{those, line};
ghost use Rattle.coherence.specs.Digits.{ways, row_by};
ghost use Rattle.coherence.specs.Masks.{has, left_of, laid};
ghost use Rattle.coherence.specs.Laying.{mask_row, writes_mask, rows_at};

use super::{factorials, mask, role};
use relation::Relation;
use run::Snapshot;

/// Lays the numbers of a group, lined up by a digit, before what else is left; gives what is left after them.
fn lay(order: &mut Relation, mut rest: u32, mut group: u32, mut digit: u32) -> u32
    requires below { digit < factorial (length (those (has group) 32)) }
    requires small { digit < 362880 }
    ensures rows { order.new.rows ≡ laid order.old.rows rest (mask_row group digit) }
    ensures rest { result ≡ left_of rest (mask_row group digit) }
{
    // A loop and no fold: four values change, one of them in the caller's place.
    for others in (0..group.count_ones()).rev() {
        let radix = factorials::factorial(others);
        let event = mask::select(group, digit / radix);
        digit %= radix;
        group = mask::without(group, event);
        rest = mask::without(rest, event);
        order.rows[event as usize] = rest;
    }
    rest
}

/// Lays the line of a location: the initial write, the free writes by their digit, the settled write.
fn lay_line(events: &Snapshot, location: u8, digit: u32, order: &mut Relation)
    requires below { digit < ways (table_run events.now.events) location }
    requires small { digit < 362880 }
    ensures { order.new.rows ≡ laid order.old.rows (writes_mask (table_run events.now.events) location) (line (table_run events.now.events) location (row_by (table_run events.now.events) location digit)) }
{
    let first = role::first(events, location);
    let free = role::free(events, location);
    let last = role::last(events, location);
    let after_first = lay(order, first | free | last, first, 0);
    let after_free = lay(order, after_first, free, digit);
    lay(order, after_free, last, 0);
}

/// Lays the lines of all locations by their digits.
pub(crate) fn lay_lines(events: &Snapshot, digits: &[u32; 16], order: &mut Relation)
    requires below { (l : ℕ) → l < 16 → slice_index digits.now l < ways (table_run events.now.events) l }
    requires small { (l : ℕ) → l < 16 → slice_index digits.now l < 362880 }
    ensures { order.new.rows ≡ rows_at (table_run events.now.events) digits.now 16 }
{
    *order = Relation { rows: [0; 32] };
    // By location: it names the line as well as the place of its digit.
    for location in 0..16u8 {
        lay_line(events, location, digits[location as usize], order);
    }
}
