// The words of a book's constructor lines, for the reader and for the constructors.
#![tactic(auto)]

#[derive(Clone, Copy)]
pub enum Constant {
    Zero,
    One,
    All,
    Dup,
    Top,
}

#[derive(Clone, Copy)]
pub enum Bit {
    Test,
    Set,
}

#[derive(Clone, Copy)]
pub enum Single {
    Not,
    Star,
    Next,
}

#[derive(Clone, Copy)]
pub enum Pair {
    Or,
    And,
    Xor,
    Minus,
    Seq,
    Until,
}

#[derive(Clone, Copy)]
pub enum Listed {
    Union,
    Inter,
}
