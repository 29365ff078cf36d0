//! Texts and their tokens.
use std::alloc::Global;
use std::process::Abort;
use std::test::Fail;
use token::fault::ReadFault;
use token::{Token, lex};

/// Sequential consistency.
const SC: &[u8] =
    b"\"SC\"\nlet fr = (rf^-1;co) \\ id (* reads before later writes *)\nacyclic po | rf | co | fr as sc\n";

/// The fault of a text, if it has one.
fn fault_of(heap: Global, text: &[u8]) -> Option<ReadFault> {
    lex(heap, text).err()
}

/// Checks that a byte of each text strays, at its place.
fn stray(rt: &impl Abort, heap: Global, texts: &[(&[u8], usize)]) {
    for (text, place) in texts {
        assert_eq!(rt;
            fault_of(heap, text),
            Some(ReadFault::Stray { place: *place })
        );
    }
}

#[test]
fn a_model_has_its_tokens(rt: HostRuntime) -> Result<(), Fail> {
    let found = lex(rt.alloc(), SC)?;
    assert!(rt; found.len() == 22);
    assert_eq!(rt; found[1].place, 5);
    assert_eq!(rt; found[6].place, 17);
    assert!(rt; matches!(found[6].token, Token::Inverse));
    assert!(rt; matches!(found[20].token, Token::As));
    Ok(())
}

#[test]
fn words_are_as_long_as_they_can_be(rt: HostRuntime) -> Result<(), Fail> {
    let found = lex(rt.alloc(), b" let_ non-sc x.1 _a 0a{}")?;
    assert!(rt; found.len() == 8);
    assert!(rt; matches!(found[0].token, Token::Name(_)));
    assert_eq!(rt; found[0].place, 1);
    assert_eq!(rt; found[2].place, 13);
    assert!(rt; matches!(found[3].token, Token::Universe));
    assert_eq!(rt; found[4].place, 18);
    assert!(rt; matches!(found[5].token, Token::NoPairs));
    assert!(rt; matches!(found[7].token, Token::NoEvents));
    Ok(())
}

#[test]
fn what_begins_no_token_is_refused_at_its_place(rt: HostRuntime) {
    let heap = rt.alloc();
    stray(
        &rt,
        heap,
        &[
            (b"(*)", 0),
            (b"a { }", 2),
            (b"r^- 1", 1),
            (b"a \"b", 2),
            (b"(**) 01", 6),
            (b"(**) 1", 5),
        ],
    );
    assert_eq!(rt; fault_of(heap, b"(* (* *) *)"), None);
}

#[test]
fn the_limits_are_told_in_their_order(rt: HostRuntime) {
    let heap = rt.alloc();
    let mut bars = [b'|'; 1025];
    assert_eq!(rt;
        fault_of(heap, &bars),
        Some(ReadFault::TooManyTokens { place: 1024 })
    );
    assert_eq!(rt; fault_of(heap, &bars[1..]), None);
    bars[1024] = b'!';
    stray(&rt, heap, &[(&bars, 1024)]);
    let many = [b'!'; 8193];
    assert_eq!(rt; fault_of(heap, &many), Some(ReadFault::TooLong));
    stray(&rt, heap, &[(&many[1..], 0)]);
}
