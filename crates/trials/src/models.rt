//! Model texts: each refusal of reading with its number and place, and texts that are read, with their numbers of checks.
use cat::Model;
use std::alloc::{AllocError, Global};
use std::process::Abort;
use std::test::Fail;

const SC: &[u8] = b"let fr = rf^-1;co acyclic po | rf | co | fr as sc";

/// How many checks a text has that is read; else the number and place of its refusal, none for want of memory.
fn told(heap: Global, text: &[u8]) -> Result<usize, Option<(u8, usize)>> {
    let mut model = Model::new();
    model.read(heap, text).map_err(|fault| fault.refusal().map(|told| (told.number, told.place)))?;
    Ok(model.checks())
}

/// Checks that texts are refused with this number, each at its place.
fn refused(rt: &impl Abort, heap: Global, number: u8, texts: &[(&[u8], usize)]) {
    for (text, place) in texts {
        assert_eq!(rt; told(heap, text), Err(Some((number, *place))));
    }
}

/// Checks that texts are read, each with its number of checks.
fn reads(rt: &impl Abort, heap: Global, texts: &[(&[u8], usize)]) {
    for (text, checks) in texts {
        assert_eq!(rt; told(heap, text), Ok(*checks));
    }
}

/// A text that begins so and goes on with the same piece, a number of times.
fn repeated(heap: Global, front: &[u8], piece: &[u8], times: usize) -> Result<Vec<u8>, AllocError> {
    let mut text = Vec::from_slice(heap, front)?;
    for _ in 0..times {
        text.extend_from_slice(piece)?;
    }
    Ok(text)
}

#[test]
fn long_texts_stray_bytes_and_many_tokens(rt: HostRuntime) -> Result<(), Fail> {
    let heap = rt.alloc();
    let long = repeated(heap, b"empty R", b" ", 8186)?;
    let longest = repeated(heap, b"empty R", b" ", 8185)?;
    refused(&rt, heap, 1, &[(long.as_slice(), 0), (&[b'!'; 8193], 0)]);
    let many = repeated(heap, b"empty R", b"|R", 512)?;
    let most = repeated(heap, b"empty R", b"|R", 511)?;
    refused(
        &rt,
        heap,
        3,
        &[(many.as_slice(), 1029), (&[b'|'; 1025], 1024)],
    );
    reads(&rt, heap, &[(longest.as_slice(), 1), (most.as_slice(), 1)]);
    refused(
        &rt,
        heap,
        2,
        &[
            (b"let a = $", 8),
            (b"empty R (* no end", 8),
            (b"empty R as a \"no end", 13),
            (b"acyclic (*)", 8),
            (b"empty { }", 6),
            (b"empty po^ -1", 8),
            (b"empty po 1", 9),
            (b"empty \xff", 6),
            (b"acyclic acyclic let }", 20),
        ],
    );
    Ok(())
}

#[test]
fn tokens_that_are_no_text(rt: HostRuntime) {
    let heap = rt.alloc();
    refused(
        &rt,
        heap,
        4,
        &[
            (b"R", 0),
            (b"let = R", 4),
            (b"let let = R", 4),
            (b"let a", 5),
            (b"acyclic", 7),
            (b"let a = (po  ", 13),
            (b"\"a\" \"b\"", 4),
            (b"flag acyclic po", 15),
            (b"flag empty R let a = R", 13),
            (b"empty R as as", 11),
            (b"empty R * ~W", 11),
            (b"let rec a = po and", 18),
            (b"empty [R)", 8),
            (b"empty (((((((((((((((((R", 24),
            (b"empty x )", 8),
        ],
    );
}

#[test]
fn limits_of_names_checks_and_brackets(rt: HostRuntime) -> Result<(), Fail> {
    let heap = rt.alloc();
    let names = repeated(heap, b"", b"let a=R ", 64)?;
    let checks = repeated(heap, b"", b"empty R ", 16)?;
    reads(
        &rt,
        heap,
        &[
            (names.as_slice(), 0),
            (checks.as_slice(), 16),
            (
                b"empty ((((((((((((((((R))))))))))))))))|((((((((((((((((W))))))))))))))))",
                1,
            ),
        ],
    );
    let many_names = repeated(heap, b"", b"let a=R ", 65)?;
    let large_group = repeated(heap, b"let rec b=0 ", b"and b=0 ", 64)?;
    let many_checks = repeated(heap, b"", b"empty R ", 17)?;
    refused(
        &rt,
        heap,
        5,
        &[
            (many_names.as_slice(), 516),
            (large_group.as_slice(), 520),
            (many_checks.as_slice(), 128),
            (b"empty (((((((((((((((((R)))))))))))))))))", 22),
            (b"empty ([([([([([([([([[x]])])])])])])])])", 22),
            (b"let R = x empty (((((((((((((((([R]))))))))))))))))", 32),
        ],
    );
    Ok(())
}

#[test]
fn names_that_are_not_bound_or_cannot_be(rt: HostRuntime) {
    let heap = rt.alloc();
    refused(
        &rt,
        heap,
        6,
        &[
            (b"let a = b", 8),
            (b"let a = a", 8),
            (b"empty a let a = R", 6),
            (b"empty R as x empty x", 19),
            (b"acyclic Po", 8),
            (b"let R = x", 4),
            (b"let a = x let R = W", 8),
            (b"let rec po = rf", 8),
            (b"let rec a = po and a = rf", 19),
            (b"let rec a = c and b = a let c = R", 12),
            (b"acyclic W empty x", 16),
        ],
    );
    reads(
        &rt,
        heap,
        &[
            (b"let a = R let a = a empty a", 1),
            (b"let rec a = b and b = a", 0),
            (b"let FR = R empty FR as R", 1),
        ],
    );
}

#[test]
fn operators_on_wrong_kinds(rt: HostRuntime) {
    let heap = rt.alloc();
    refused(
        &rt,
        heap,
        7,
        &[
            (b"acyclic W", 0),
            (b"irreflexive R", 0),
            (b"flag ~acyclic ~W as x", 6),
            (b"empty po | W", 9),
            (b"empty po & W", 9),
            (b"empty W \\ po", 8),
            (b"empty po ; W", 9),
            (b"empty po * R", 9),
            (b"empty R+", 7),
            (b"empty R*", 7),
            (b"empty R?", 7),
            (b"empty _^-1", 7),
        ],
    );
}

#[test]
fn tests_groups_and_torn_kinds(rt: HostRuntime) {
    let heap = rt.alloc();
    refused(
        &rt,
        heap,
        7,
        &[
            (b"empty [po]", 6),
            (b"let rec a = R", 8),
            (b"let rec a = po and b = {}", 19),
            (b"let rec a = a & R", 14),
            (b"let rec a = R ; R", 14),
            (b"acyclic (R ; R) | W", 11),
            (b"let a = R ; R acyclic a | R", 10),
            (b"let a = R let a = po | a", 21),
            (b"let rec a = ~a let rec b = R", 23),
        ],
    );
    reads(
        &rt,
        heap,
        &[(b"let a = R*W|[M];0 acyclic a empty _ & IW | FW \\ F & B", 2)],
    );
}

#[test]
fn recursion_under_a_complement(rt: HostRuntime) {
    let heap = rt.alloc();
    refused(
        &rt,
        heap,
        8,
        &[
            (b"let rec a = ~a", 13),
            (b"let rec a = po \\ a", 17),
            (b"let rec a = ~(~a)", 15),
            (b"let rec a = po and b = ~(rf;[R];a)", 32),
            (b"let rec a = b \\ po and b = po \\ (rf | b) \\ a", 38),
            (b"let a = po let rec a = ~a", 24),
        ],
    );
    reads(
        &rt,
        heap,
        &[
            (b"let rec a = po let rec b = ~a empty po \\ b", 1),
            (b"let rec a = a \\ po", 0),
            (b"let rec a = po let a = ~a", 0),
        ],
    );
}

#[test]
fn models_are_read_with_their_checks(rt: HostRuntime) {
    let heap = rt.alloc();
    reads(
        &rt,
        heap,
        &[
            (SC, 1),
            (
                b"\"Sequential consistency\"\n(* One line of all events explains the run. *)\nlet fr = rf^-1;co\nacyclic po | rf | co | fr as sc\n",
                1,
            ),
            (
                b"\"Total store order\"\nlet fr = rf^-1;co\nlet rfe = rf & ext (* from another thread *)\nacyclic po & loc | rf | co | fr as uniproc\nlet ppo = po \\ W*R\nlet fence = po;[F];po\nacyclic ppo | fence | rfe | co | fr as tso",
                2,
            ),
            (
                b"(* hb: happens before *)\nlet fr = rf^-1;co\nlet hb = (po | rf)+\nirreflexive hb;(co | fr)? as coherence\nirreflexive fr;co as atomic\nflag ~empty (W*M | M*W) & loc & ext \\ (hb | hb^-1) \\ IW*_ as race\n",
                3,
            ),
            (
                b"\"Coherence\"\nlet fr = (rf^-1;co) \\ id\nlet po-loc = po & loc\nacyclic po-loc | rf | co | fr as per_location",
                1,
            ),
            (
                b"let rfe = rf & ext\nlet rec ii = po & loc | ci | ic;ci | ii;ii\nand ic = ii | cc | ic;cc | ii;ic\nand ci = rfe | ci;ii | cc;ci\nand cc = po | ci | ci;ic | cc;cc\nlet ppo = ii & R*R | ic & R*W\nacyclic ppo+ as causality\n~empty ppo",
                2,
            ),
            (b"", 0),
            (b" (* nothing (* at all *)\t", 0),
            (b"\"a title\"", 0),
        ],
    );
}

#[test]
fn a_text_is_read_in_place_of_the_last(rt: HostRuntime) {
    let heap = rt.alloc();
    let mut model = Model::new();
    assert!(rt; !model.is_read());
    assert!(rt; model.read(heap, SC).is_ok());
    assert!(rt; model.is_read() && model.checks() == 1 && model.statements().len() == 2);
    assert!(rt; model.read(heap, b"empty R empty W empty F").is_ok());
    assert!(rt; model.is_read() && model.checks() == 3);
    assert!(rt; model.read(heap, b"acyclic W").is_err());
    assert!(rt; !model.is_read());
    assert!(rt; model.read(heap, SC).is_ok());
    assert!(rt; model.is_read() && model.checks() == 1);
}
