//! Byte classes: a table, and its rule.
ghost use Rattle.std.specs.Prelude.{◌≡◌};
ghost use Rattle.token.specs.Classes.{class, class_number, Classified};

use Class::{Blank, Digit, Letter, Mark, Other, Sign};

/// The classes of bytes.
#[derive(Clone, Copy, PartialEq, Eq, Debug)]
pub enum Class {
    /// A byte that stands only in comments and titles.
    Other,
    /// A tabulator, a line feed, a carriage return or a space.
    Blank,
    /// `A` to `Z`, `a` to `z`.
    Letter,
    /// `0` to `9`.
    Digit,
    /// `-`, `.` and `_`.
    Mark,
    /// A byte that begins a sign or a title.
    Sign,
}

/// The class of every byte.
const CLASSES: [Class; 256] = [
    Other, Other, Other, Other, Other, Other, Other, Other, Other, Blank, // tab
    Blank, // line feed
    Other, Other, Blank, // carriage return
    Other, Other, Other, Other, Other, Other, Other, Other, Other, Other, Other, Other, Other,
    Other, Other, Other, Other, Other, Blank, // space
    Other, Sign, // "
    Other, Other, Other, Sign, // &
    Other, Sign, // (
    Sign, // )
    Sign, // *
    Sign, // +
    Other, Mark, // -
    Mark, // .
    Other, Digit, // 0
    Digit, // 1
    Digit, // 2
    Digit, // 3
    Digit, // 4
    Digit, // 5
    Digit, // 6
    Digit, // 7
    Digit, // 8
    Digit, // 9
    Other, Sign, // ;
    Other, Sign, // =
    Other, Sign, // ?
    Other, Letter, // A
    Letter, // B
    Letter, // C
    Letter, // D
    Letter, // E
    Letter, // F
    Letter, // G
    Letter, // H
    Letter, // I
    Letter, // J
    Letter, // K
    Letter, // L
    Letter, // M
    Letter, // N
    Letter, // O
    Letter, // P
    Letter, // Q
    Letter, // R
    Letter, // S
    Letter, // T
    Letter, // U
    Letter, // V
    Letter, // W
    Letter, // X
    Letter, // Y
    Letter, // Z
    Sign, // [
    Sign, // \
    Sign, // ]
    Sign, // ^
    Mark, // _
    Other, Letter, // a
    Letter, // b
    Letter, // c
    Letter, // d
    Letter, // e
    Letter, // f
    Letter, // g
    Letter, // h
    Letter, // i
    Letter, // j
    Letter, // k
    Letter, // l
    Letter, // m
    Letter, // n
    Letter, // o
    Letter, // p
    Letter, // q
    Letter, // r
    Letter, // s
    Letter, // t
    Letter, // u
    Letter, // v
    Letter, // w
    Letter, // x
    Letter, // y
    Letter, // z
    Sign, // {
    Sign, // |
    Sign, // }
    Sign, // ~
    Other, Other, Other, Other, Other, Other, Other, Other, Other, Other, Other, Other, Other,
    Other, Other, Other, Other, Other, Other, Other, Other, Other, Other, Other, Other, Other,
    Other, Other, Other, Other, Other, Other, Other, Other, Other, Other, Other, Other, Other,
    Other, Other, Other, Other, Other, Other, Other, Other, Other, Other, Other, Other, Other,
    Other, Other, Other, Other, Other, Other, Other, Other, Other, Other, Other, Other, Other,
    Other, Other, Other, Other, Other, Other, Other, Other, Other, Other, Other, Other, Other,
    Other, Other, Other, Other, Other, Other, Other, Other, Other, Other, Other, Other, Other,
    Other, Other, Other, Other, Other, Other, Other, Other, Other, Other, Other, Other, Other,
    Other, Other, Other, Other, Other, Other, Other, Other, Other, Other, Other, Other, Other,
    Other, Other, Other, Other, Other, Other, Other, Other, Other, Other, Other, Other,
];

/// The class of a byte.
pub fn class_of(byte: u8) -> Class
    ensures value { class_number result ≡ class byte }
    ensures rule { Classified byte (class_number result) }
{
    // By a reference: indexed by its name the table would be laid on the stack anew for each byte.
    let classes = &CLASSES;
    classes[byte as usize]
}
