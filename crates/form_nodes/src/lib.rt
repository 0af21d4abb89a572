// A node of a type in one word: its kind, its count and its own number.
#![tactic(auto)]

ghost use Rattle.std.specs.Prelude.{◌≡◌};
ghost use Rattle.form_laws.specs.Nodes.{node};
ghost use Rattle.form_nodes.specs.Words.{word, node_of};

// The word of a node, whose kind is cut to four bits and whose count to ten.
pub fn pack(kind: u32, count: u32, own: u32) -> u64
    ensures { result ≡ word (node kind count own) }
{
    let k = kind as u64 % 16;
    let n = count as u64 % 1024;
    let x = own as u64;
    k + 16 * (n + 1024 * x)
}

// A word's kind.
pub fn kind(w: u64) -> u32
    ensures { result ≡ (node_of w).kind }
{
    (w % 16) as u32
}

// A word's count.
pub fn count(w: u64) -> u32
    ensures { result ≡ (node_of w).count }
{
    (w / 16 % 1024) as u32
}

// A word's own number.
pub fn own(w: u64) -> u32
    ensures { result ≡ (node_of w).own }
{
    (w / 16384 % 4294967296) as u32
}
