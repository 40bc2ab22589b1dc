// A node of a graph: a row of the node table, taken apart, and beside it the node's offset.
use crate::units::ByteOffset;

// What a load reads: the window, 0 for work and 1 for table, and the address of element 0.
#[derive(Clone, Copy)]
pub struct LoadAt {
    pub window: u64,
    pub address: ByteOffset,
}

// The offsets between which a shift moves its child.
#[derive(Clone, Copy)]
pub struct ShiftBy {
    pub from: ByteOffset,
    pub to: ByteOffset,
}

// A load, a splat of a value, an op by its operation, a shift.
#[derive(Clone, Copy)]
pub enum Node {
    Load(LoadAt),
    Splat(u64),
    Op(u64),
    Shift(ShiftBy),
}

// A node's offset: a number of bytes, or undefined, which agrees with everything.
#[derive(Clone, Copy)]
pub enum Offset {
    At(ByteOffset),
    Undefined,
}

// A node and its offset.
#[derive(Clone, Copy)]
pub struct NodeRecord {
    pub node: Node,
    pub offset: Offset,
}
