// One instruction in one pass (document 01, "Vector code"), picked by its kind, and the splat, which goes by what its run found
// of an element. False is a FAULT, and then nothing is changed.
ghost use Rattle.std.specs.Prelude.{◌≡◌};
ghost use Rattle.rules.specs.Units.{width_bytes};
ghost use Rattle.rules.specs.Frames.{splat_kind};
ghost use Rattle.rules.specs.Machine.{splat_value};
ghost use Rattle.machine_kinds.specs.Trying.{tried, try_as, Tries};

use crate::elements::Element;
use machine_kinds::{REGISTERS, Registers};
use rules::kinds::InstructionKind;
use rules::limits::LOW_VALUES;
use rules::program::Instruction;
use rules::units::{VectorNumber, Width};

fn splat_value(i: Instruction) -> u64
    ensures { result ≡ splat_value i }
{
    u64::from(i.low) + LOW_VALUES * u64::from(i.high)
}

// One product is the value in every element of eight bytes, whatever the width.
#[tactic(auto, using(std::proofs::lemmas::Bool::Decides::nat_tests), unfolding(machine_kinds::specs::Trying::try_as, rules::specs::Machine::fields_as, rules::specs::Machine::reaches_as, rules::specs::Machine::effect_as))]
fn do_splat(element: Element, i: Instruction, registers: &mut Registers) -> bool
    ensures { Tries splat_kind (width_bytes element.width) i result registers.old registers.new }
{
    let value = splat_value(i);
    if REGISTERS <= i.destination || element.largest < value {
        return false;
    }
    registers[i.destination as usize] = vector_bytes::vsplat(Width::Eight, value * element.ones);
    true
}

#[tactic(auto, using(crate::proofs::KindLaws::kinds), unfolding(rules::specs::Machine::fields_as))]
pub(crate) fn act(
    element: Element,
    i: Instruction,
    pass: VectorNumber,
    registers: &mut Registers,
    work: &mut [u8],
    table: &[u8],
) -> bool
    ensures { tried result registers.new work.new ≡ try_as i.kind (width_bytes element.width) table.now pass.0 i registers.old work.old }
{
    match InstructionKind::try_from(i.kind) {
        Ok(InstructionKind::Load) => machine_kinds::do_load(i, pass, registers, work, table),
        Ok(InstructionKind::Splat) => do_splat(element, i, registers),
        Ok(InstructionKind::Op) => machine_kinds::do_op(element.width, i, registers),
        Ok(InstructionKind::Pair) => machine_kinds::do_pair(i, registers),
        Ok(InstructionKind::Splice) => machine_kinds::do_splice(i, registers),
        Ok(InstructionKind::Store) => machine_kinds::do_store(i, pass, registers, work),
        Err(_) => false,
    }
}
