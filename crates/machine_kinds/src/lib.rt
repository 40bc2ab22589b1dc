// An instruction of each kind but the splat, in one pass (document 01, "Vector code"): load, the operations, vshiftpair, vsplice,
// store. False is a FAULT, and then nothing is changed.
#![tactic(auto, unfolding(crate::specs::Trying::try_as, rules::specs::Machine::fields_as, rules::specs::Machine::reaches_as, rules::specs::Machine::effect_as))]

ghost use Rattle.std.specs.Prelude.{◌≡◌, true, false, [], ◌<◌, MatchOption};
ghost use Rattle.rules.specs.Limits.{registers};
ghost use Rattle.rules.specs.Units.{width_bytes};
ghost use Rattle.rules.specs.Frames.{load_kind, op_kind};
ghost use Rattle.rules.specs.Machine.{pair_kind, splice_kind, store_kind};
ghost use Rattle.machine_kinds.specs.Trying.{tried, try_as, Tries, any_width, registers_known, operated};

use operations::Operation;
use rules::program::Instruction;
use rules::units::{VectorNumber, Width};
use vector_elements::{Lane, VECTOR_BYTES, Vector};

pub const REGISTERS: u32 = 1024;

// The registers, as arrays count.
const REGISTER_COUNT: usize = REGISTERS as usize;

pub type Registers = [Vector; REGISTER_COUNT];

const WINDOWS: u32 = 2;

// V, as an amount counts.
const V: u32 = VECTOR_BYTES as u32;

// The three registers of an instruction on two vectors: all are there.
#[derive(Clone, Copy)]
struct Operands {
    destination: usize,
    a: usize,
    b: usize,
    ghost known: { (destination < registers) × (a < registers) × (b < registers) },
}

impl Operands {
    fn of(i: Instruction) -> Option<Operands>
        ensures { MatchOption result (registers_known i ≡ false) (λ r. (registers_known i ≡ true) × (r.destination ≡ i.destination) × (r.a ≡ i.a) × (r.b ≡ i.b)) }
    {
        if REGISTERS <= i.destination || REGISTERS <= i.a || REGISTERS <= i.b {
            return None;
        }
        Some(Operands {
            destination: i.destination as usize,
            a: i.a as usize,
            b: i.b as usize,
        })
    }
}

pub fn do_load<'a>(
    i: Instruction,
    pass: VectorNumber,
    registers: &mut Registers,
    work: &'a [u8],
    table: &'a [u8],
) -> bool
    ensures { tried result registers.new work.now ≡ try_as load_kind any_width table.now pass.0 i registers.old work.now }
{
    if REGISTERS <= i.destination || WINDOWS <= i.a {
        return false;
    }
    registers[i.destination as usize] = vector_blocks::load(work, table, i.a, i.low, pass);
    true
}

fn operate<E: Lane>(operation: u32, r: Operands, file: &mut Registers)
    ensures { file.new ≡ operated E.BYTES operation r.destination r.a r.b file.old }
{
    file[r.destination] = vector_lanes::vop::<E>(operation, file[r.a], file[r.b]);
}

pub fn do_op(width: Width, i: Instruction, registers: &mut Registers) -> bool
    ensures { Tries op_kind (width_bytes width) i result registers.old registers.new }
{
    let Some(r) = Operands::of(i) else {
        return false;
    };
    if Operation::try_from(i.low as u64).is_err() {
        return false;
    }
    match width {
        Width::One => operate::<u8>(i.low, r, registers),
        Width::Two => operate::<u16>(i.low, r, registers),
        Width::Four => operate::<u32>(i.low, r, registers),
        Width::Eight => operate::<u64>(i.low, r, registers),
    }
    true
}

pub fn do_pair(i: Instruction, registers: &mut Registers) -> bool
    ensures { Tries pair_kind any_width i result registers.old registers.new }
{
    let Some(r) = Operands::of(i) else {
        return false;
    };
    if V <= i.low {
        return false;
    }
    registers[r.destination] = vector_bytes::vshiftpair(registers[r.a], registers[r.b], i.low);
    true
}

pub fn do_splice(i: Instruction, registers: &mut Registers) -> bool
    ensures { Tries splice_kind any_width i result registers.old registers.new }
{
    let Some(r) = Operands::of(i) else {
        return false;
    };
    if V < i.low {
        return false;
    }
    registers[r.destination] = vector_bytes::vsplice(registers[r.a], registers[r.b], i.low);
    true
}

pub fn do_store(i: Instruction, pass: VectorNumber, registers: &Registers, work: &mut [u8]) -> bool
    ensures { tried result registers.now work.new ≡ try_as store_kind any_width [] pass.0 i registers.now work.old }
{
    if REGISTERS <= i.a {
        return false;
    }
    vector_blocks::store(work, i.low, pass, registers[i.a as usize])
}
