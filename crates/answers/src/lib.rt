// "Numbers the translator gives back": the number, the place and the steps of what a call answers, for callers that have no enums: C,
// and what is printed.
#![tactic(auto)]

ghost use Rattle.std.specs.Prelude.{◌≡◌};
ghost use Rattle.rules.specs.Answers.{of_refusal, of_result, of_run};
ghost use Rattle.answers.specs.Given.{answer_of, numbered};

use rules::answers::Refusal;

// The answers' numbers.
pub const DONE: u64 = 0;

pub const ROOM: u64 = 1;

const LINE: u64 = 2;

const RANGE: u64 = 3;

const SHAPE: u64 = 4;

const BARE: u64 = 5;

const WINDOW: u64 = 6;

const ALIGN: u64 = 7;

const BOUNDS: u64 = 8;

const CARRY: u64 = 9;

const OFFSET: u64 = 10;

const LONG: u64 = 11;

const OUT: u64 = 12;

const FAULT: u64 = 13;

#[derive(Clone, Copy, PartialEq, Eq)]
pub struct Numbered {
    pub number: u64,
    pub place: u64,
    pub steps: u64,
}

impl Numbered {
    fn given(number: u64, place: u64, steps: u64) -> Numbered
        ensures { answer_of result ≡ numbered number place steps }
    {
        Numbered {
            number,
            place,
            steps,
        }
    }
}

impl From<Refusal> for Numbered {
    ghost from_gives = { λ refusal n. answer_of n ≡ of_refusal refusal };

    fn from(refusal: Refusal) -> Numbered {
        match refusal {
            Refusal::Room => Numbered::given(ROOM, 0, 0),
            Refusal::Line(line) => Numbered::given(LINE, line, 0),
            Refusal::Range(line) => Numbered::given(RANGE, line, 0),
            Refusal::Shape(line) => Numbered::given(SHAPE, line, 0),
            Refusal::Bare(line) => Numbered::given(BARE, line, 0),
            Refusal::Window(window) => Numbered::given(WINDOW, window, 0),
            Refusal::Align(line) => Numbered::given(ALIGN, line, 0),
            Refusal::Bounds(line) => Numbered::given(BOUNDS, line, 0),
            Refusal::Carry(line) => Numbered::given(CARRY, line, 0),
            Refusal::Offset(line) => Numbered::given(OFFSET, line, 0),
            Refusal::Long => Numbered::given(LONG, 0, 0),
            Refusal::Out(steps) => Numbered::given(OUT, 0, steps),
            Refusal::Fault(steps) => Numbered::given(FAULT, 0, steps),
        }
    }
}

// A call that gives nothing but its answer.
impl From<Result<(), Refusal>> for Numbered {
    ghost from_gives = { λ answer n. answer_of n ≡ of_result answer };

    fn from(answer: Result<(), Refusal>) -> Numbered {
        match answer {
            Ok(()) => Numbered::given(DONE, 0, 0),
            Err(refusal) => Numbered::from(refusal),
        }
    }
}

// A run, which gives its steps.
impl From<Result<u64, Refusal>> for Numbered {
    ghost from_gives = { λ answer n. answer_of n ≡ of_run answer };

    fn from(answer: Result<u64, Refusal>) -> Numbered {
        match answer {
            Ok(steps) => Numbered::given(DONE, 0, steps),
            Err(refusal) => Numbered::from(refusal),
        }
    }
}
