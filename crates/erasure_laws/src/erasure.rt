// What erasure answers: the definitions and laws are in specs/.

// Which types and which declarations are erased, and after how many rounds.
#[derive(Clone, Copy)]
pub struct Erasure {
    pub node: [u8; 1024],
    pub decl: [u8; 96],
    pub rounds: usize,
}
