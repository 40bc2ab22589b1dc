// The rules of document 01: the types and numbers that every layer shares. Their meaning is in specs/,
// worked examples in proofs/, the argument about them in crate theory. The code is what names a number, and what it names.
#![tactic(auto)]

pub mod answers;
pub mod kinds;
pub mod limits;
pub mod nodes;
pub mod printing;
pub mod program;
pub mod sheet;
pub mod units;
