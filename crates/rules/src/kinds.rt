// What a number of the paper names: a frame's kind, an instruction's, a placing rule. A number that names none is handed back.
ghost use Rattle.std.specs.Prelude.{◌≡◌};
ghost use Rattle.rules.specs.Kinds.{frame_kind, frame_number, instruction_kind, instruction_number, rule_of};

use crate::answers::Refusal;
use crate::limits::{LOAD_KIND, OP_KIND, RULES_MOST, SHIFT_KIND, SPLAT_KIND};

// A number that names none.
#[derive(Clone, Copy, PartialEq, Eq)]
pub struct Unknown(pub u64);

// The kinds of a sheet's frames, in the order of their numbers. Load to Shift are nodes.
#[derive(Clone, Copy, PartialEq, Eq)]
pub enum FrameKind {
    Header,
    Load,
    Splat,
    Op,
    Shift,
    End,
}

impl FrameKind {
    pub fn number(self) -> u64
        ensures { result ≡ frame_number self }
    {
        match self {
            FrameKind::Header => 0,
            FrameKind::Load => LOAD_KIND,
            FrameKind::Splat => SPLAT_KIND,
            FrameKind::Op => OP_KIND,
            FrameKind::Shift => SHIFT_KIND,
            FrameKind::End => 5,
        }
    }
}

impl TryFrom<u64> for FrameKind {
    type Error = Unknown;

    ghost try_from_gives = { λ number r. r ≡ frame_kind number };

    fn try_from(number: u64) -> Result<FrameKind, Unknown> {
        match number {
            0 => Ok(FrameKind::Header),
            LOAD_KIND => Ok(FrameKind::Load),
            SPLAT_KIND => Ok(FrameKind::Splat),
            OP_KIND => Ok(FrameKind::Op),
            SHIFT_KIND => Ok(FrameKind::Shift),
            5 => Ok(FrameKind::End),
            _ => Err(Unknown(number)),
        }
    }
}

// The kinds of a program's instructions.
#[derive(Clone, Copy, PartialEq, Eq)]
pub enum InstructionKind {
    Load,
    Splat,
    Op,
    Pair,
    Splice,
    Store,
}

impl InstructionKind {
    pub fn number(self) -> u32
        ensures { result ≡ instruction_number self }
    {
        match self {
            InstructionKind::Load => 1,
            InstructionKind::Splat => 2,
            InstructionKind::Op => 3,
            InstructionKind::Pair => 4,
            InstructionKind::Splice => 5,
            InstructionKind::Store => 6,
        }
    }
}

impl TryFrom<u32> for InstructionKind {
    type Error = Unknown;

    ghost try_from_gives = { λ number r. r ≡ instruction_kind number };

    fn try_from(number: u32) -> Result<InstructionKind, Unknown> {
        match number {
            1 => Ok(InstructionKind::Load),
            2 => Ok(InstructionKind::Splat),
            3 => Ok(InstructionKind::Op),
            4 => Ok(InstructionKind::Pair),
            5 => Ok(InstructionKind::Splice),
            6 => Ok(InstructionKind::Store),
            _ => Err(Unknown(number as u64)),
        }
    }
}

// The placing rules.
#[derive(Clone, Copy, PartialEq, Eq)]
pub enum Rule {
    Zero,
    Eager,
    Lazy,
    Dominant,
}

impl TryFrom<u64> for Rule {
    type Error = Refusal;

    ghost try_from_gives = { λ number r. r ≡ rule_of number };

    // A rule above 3 is refused at place 0, before every line.
    fn try_from(number: u64) -> Result<Rule, Refusal> {
        match number {
            0 => Ok(Rule::Zero),
            1 => Ok(Rule::Eager),
            2 => Ok(Rule::Lazy),
            RULES_MOST => Ok(Rule::Dominant),
            _ => Err(Refusal::Range(0)),
        }
    }
}
