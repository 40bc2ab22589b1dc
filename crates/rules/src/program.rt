// A vector program: its head goes by value, its three sections are lent tables of numbers.

// D, the number F of whole vectors, and how many instructions each section has.
#[derive(Clone, Copy)]
pub struct ProgramHead {
    pub d: u64,
    pub f: u64,
    pub prologue: u64,
    pub body: u64,
    pub epilogue: u64,
}

// A row of a section. What a kind does not use is ignored.
#[derive(Clone, Copy)]
pub struct Instruction {
    pub kind: u32,
    pub destination: u32,
    pub a: u32,
    pub b: u32,
    pub low: u32,
    pub high: u32,
}
