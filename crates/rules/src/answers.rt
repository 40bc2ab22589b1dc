// What calls answer: Ok, or a refusal. A call that gives nothing but its answer gives Ok(()), a run the steps done.

// Why a call refuses, or how a run stops before the end of its program. A case's number holds its place: a line, from 1, or for
// Window which of the two it is; Out and Fault hold the steps done. specs/Answers.antt gives each case the paper's number and place.
#[derive(Clone, Copy, PartialEq, Eq)]
pub enum Refusal {
    Room,
    Line(u64),
    Range(u64),
    Shape(u64),
    Bare(u64),
    Window(u64),
    Align(u64),
    Bounds(u64),
    Carry(u64),
    Offset(u64),
    Long,
    Out(u64),
    Fault(u64),
}
