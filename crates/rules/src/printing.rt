// What the printing programs say of one plan.

// The answer's number and its place, and of the plan's tree the shifts, G and the steps of its program: zero on a refusal.
#[derive(Clone, Copy)]
pub struct Figures {
    pub answer: u64,
    pub place: u64,
    pub shifts: u64,
    pub size: u64,
    pub steps: u64,
}
