//! Relations: small ones, closed, joined, turned round and tested.
use relation::{Relation, mask};

/// What the events 0, 1 and 2 are related to.
fn three(first: u32, second: u32, third: u32) -> Relation {
    Relation::product(1, first)
        .union(Relation::product(2, second))
        .union(Relation::product(4, third))
}

/// 0 to 1, 1 to 2, 2 to 3.
fn chain() -> Relation {
    three(2, 4, 8)
}

/// The chain, and 3 back to 0.
fn ring() -> Relation {
    chain().union(Relation::product(8, 1))
}

#[test]
fn a_chain_is_closed(rt: HostRuntime) {
    assert!(rt; chain().closure().is(three(14, 12, 8)));
}

#[test]
fn a_ring_is_closed(rt: HostRuntime) {
    assert!(rt; ring().closure().is(Relation::product(15, 15)));
}

#[test]
fn a_cycle_is_found(rt: HostRuntime) {
    assert!(rt; chain().is_acyclic() && ring().is_irreflexive() && !ring().is_acyclic());
}

#[test]
fn a_product_relates_all(rt: HostRuntime) {
    assert!(rt; Relation::product(7, 12).is(three(12, 12, 12)));
}

#[test]
fn an_inverse_goes_back(rt: HostRuntime) {
    assert!(rt; three(1, 1, 2).inverse().is(three(3, 4, 0)));
}

#[test]
fn a_sequence_takes_two_steps(rt: HostRuntime) {
    assert!(rt; chain().sequence(chain()).is(three(4, 8, 0)));
}

#[test]
fn a_complement_stays_in_the_universe(rt: HostRuntime) {
    assert!(rt; chain().complement(7).is(three(5, 3, 7)) && mask::complement(5, 15) == 10);
}

#[test]
fn an_event_leads_on(rt: HostRuntime) {
    assert!(rt; chain().leads(1) == 12 && ring().leads(1) == 15 && chain().leads(32) == 0);
}

#[test]
fn a_star_has_the_universe(rt: HostRuntime) {
    assert!(rt; chain().star(7).is(three(15, 14, 12)) && chain().maybe(7).is(three(3, 6, 12)));
}
