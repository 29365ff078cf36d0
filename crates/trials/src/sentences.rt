//! Sentences: sorts of tokens that are texts, and the places where others are refused.
use sentence::{SentenceFault, Sort, read};
use std::alloc::Global;

/// How many statements are read, or the refusal.
fn outcome(heap: Global, sorts: &[Sort]) -> Result<usize, SentenceFault> {
    Ok(read(heap, sorts)?.statements.len())
}

/// A refusal at a place.
fn refused(place: usize) -> Result<usize, SentenceFault> {
    Err(SentenceFault::Place(place))
}

#[test]
fn reads_texts(rt: HostRuntime) {
    let heap = rt.alloc();
    assert_eq!(rt; outcome(heap, &[]), Ok(0));
    assert_eq!(rt;
        outcome(
            heap,
            &[
                Sort::Title,
                Sort::Let,
                Sort::Name,
                Sort::Equals,
                Sort::Name,
                Sort::Star,
                Sort::Tilde,
                Sort::Empty,
                Sort::Name,
            ],
        ),
        Ok(2)
    );
    assert_eq!(rt;
        outcome(
            heap,
            &[
                Sort::Flag,
                Sort::Acyclic,
                Sort::Name,
                Sort::Star,
                Sort::OpenSquare,
                Sort::Name,
                Sort::CloseSquare,
                Sort::Plus,
                Sort::As,
                Sort::Name,
            ],
        ),
        Ok(1)
    );
}

#[test]
fn refuses_at_the_place(rt: HostRuntime) {
    let heap = rt.alloc();
    assert_eq!(rt; outcome(heap, &[Sort::Title, Sort::Title]), refused(1));
    assert_eq!(rt; outcome(heap, &[Sort::Let, Sort::Equals]), refused(1));
    assert_eq!(rt;
        outcome(
            heap,
            &[Sort::Empty, Sort::Name, Sort::Star, Sort::Tilde, Sort::Name],
        ),
        refused(4)
    );
    assert_eq!(rt;
        outcome(
            heap,
            &[Sort::Empty, Sort::Open, Sort::Name, Sort::CloseSquare],
        ),
        refused(3)
    );
    assert_eq!(rt;
        outcome(heap, &[Sort::Flag, Sort::Empty, Sort::Name]),
        refused(3)
    );
}

#[test]
fn nests_deep(rt: HostRuntime) {
    let mut deep = [Sort::Open; 1024];
    deep[0] = Sort::Empty;
    assert_eq!(rt; outcome(rt.alloc(), &deep), refused(1024));
}
