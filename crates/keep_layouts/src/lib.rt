// What a declaration keeps, its verdict, and what becomes of its name: the definitions and laws are in specs/.
#![tactic(auto)]

// How a type is laid out (FORMAT, section 2). A newtype has the name of its constructor and the F line of its payload.
#[derive(Clone, Copy)]
pub enum Layout {
    Erased,
    Newtype { ctor: u16, field: u16 },
    Struct,
    Abbreviation,
    Opaque,
}

// The verdict on a declaration.
#[derive(Clone, Copy)]
pub struct Verdict {
    pub erased: bool,
    pub layout: Layout,
}
