// What erasure keeps and answers: the definitions and laws are in specs/. A declaration's first kept field only moves on, since marks
// only ever become 1. The marks of types are made right only as far as a declaration needs them, and from the first type on that
// names a declaration which became erased.
#![tactic(auto)]

pub mod erasure;

// By what the rules judge a declaration: it is erased, or kept, whatever is marked; or it is erased as its type is, or as its fields are.
#[derive(Clone, Copy)]
pub enum Way {
    Erased,
    Kept,
    AsType,
    AsFields,
}

// Whether a declaration is erased, and below which type the marks of types are right.
#[derive(Clone, Copy)]
pub struct Ruled {
    pub erased: bool,
    pub right: usize,
}

// A field, and below which type the marks of types are right.
#[derive(Clone, Copy)]
pub struct Field {
    pub number: usize,
    pub right: usize,
}

// A round: how many declarations were erased, and below which type the marks of types are right.
#[derive(Clone, Copy)]
pub struct Round {
    pub erased: usize,
    pub right: usize,
}
