// Numbers in columns: what is read of them. The definitions and laws are in specs/.
#![tactic(auto)]

// What has been read of a number so far.
#[derive(Clone, Copy)]
pub enum Scan {
    Blank,
    Zero,
    In(u32),
    Broken,
}
