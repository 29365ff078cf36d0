//! Signs: the parts that expressions are made of.
ghost use Rattle.std.specs.Prelude.{◌≡◌};

/// What is an expression by itself.
#[derive(Clone, Copy, PartialEq, Eq, Debug)]
pub enum Leaf {
    Name,
    Universe,
    NoPairs,
    NoEvents,
}

/// The two kinds of brackets.
#[derive(Clone, Copy, PartialEq, Eq, Debug)]
pub enum Bracket {
    Round,
    Square,
}

/// The signs behind an operand.
#[derive(Clone, Copy, PartialEq, Eq, Debug)]
pub enum Post {
    Plus,
    Closure,
    Question,
    Inverse,
}

/// The signs between two operands.
#[derive(Clone, Copy, PartialEq, Eq, Debug)]
pub enum Infix {
    Bar,
    Semicolon,
    Backslash,
    Ampersand,
    Product,
}

impl Infix {
    ghost use Rattle.sentence.specs.Trees.{rank, bound};

    /// How tightly the sign binds.
    pub(crate) fn rank(self) -> u8
        ensures { result ≡ rank self }
    {
        match self {
            Infix::Bar => 1,
            Infix::Semicolon => 2,
            Infix::Backslash => 3,
            Infix::Ampersand => 4,
            Infix::Product => 5,
        }
    }

    /// How tightly its right operand has to hold together.
    pub(crate) fn bound(self) -> u8
        ensures { result ≡ bound self }
    {
        match self {
            Infix::Bar => 2,
            Infix::Semicolon => 3,
            Infix::Backslash => 4,
            Infix::Ampersand => 5,
            Infix::Product => 7,
        }
    }
}

/// The three words of a check.
#[derive(Clone, Copy, PartialEq, Eq, Debug)]
pub enum Word {
    Acyclic,
    Irreflexive,
    Empty,
}
