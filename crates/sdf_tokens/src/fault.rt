//! What is wrong with a header, and where.

/// A fault of the tokens or of the grammar.
#[derive(Clone, Copy)]
pub enum FaultKind {
    Syntax,
    UnknownType,
    NameTwice,
    SecondStruct,
    TooWide,
}

/// A fault with the number of bytes from its place to the end of the text.
#[derive(Clone, Copy)]
pub struct Fault {
    pub kind: FaultKind,
    pub left: usize,
}
