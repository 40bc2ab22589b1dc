// The instructions of a program in their order: a section in one pass, the body's passes, and the three sections of a run. A part
// of a run gives the steps done so far, and a run that has stopped is OUT or FAULT.
ghost use Rattle.std.specs.Prelude.{◌≡◌, ◌-◌};
ghost use Rattle.rules.specs.Limits.{vector_bytes};
ghost use Rattle.rules.specs.Units.{width_bytes};
ghost use Rattle.rules.specs.Answers.{DONE};
ghost use Rattle.rules.specs.Machine.{in_pass, passes, trace, standing, runs, start};
ghost use Rattle.rules.specs.Calls.{ended};
ghost use Rattle.machine_kinds.specs.Trying.{state};
ghost use Rattle.machine.specs.Running.{instructions, program, stood, ran};

use crate::elements::Element;
use crate::instructions::act;
use crate::sections::Section;
use machine_kinds::{REGISTERS, Registers};
use rules::answers::Refusal;
use rules::units::VectorNumber;
use vector_elements::VECTOR_BYTES;

// What a run goes by, all along: its elements, its budget and the window that it only reads.
#[derive(Clone, Copy)]
pub(crate) struct Run<'a> {
    pub element: Element,
    pub budget: u64,
    pub table: &'a [u8],
}

impl Run<'_> {
    // The instructions of a section in one pass.
    #[tactic(auto, using(crate::proofs::PassLaws::row_by_row), unfolding(rules::specs::Machine::runs))]
    fn section_pass(
        self,
        mut steps: u64,
        section: Section,
        pass: VectorNumber,
        registers: &mut Registers,
        work: &mut [u8],
    ) -> Result<u64, Refusal>
        ensures { stood result registers.new work.new ≡ runs vector_bytes (width_bytes self.entry.element.width) self.entry.table.now self.entry.budget (standing DONE steps (state registers.old work.old)) (in_pass pass.0 (instructions section.entry)) }
    {
        for row in 0..section.rows {
            if self.budget <= steps {
                return Err(Refusal::Out(steps));
            }
            let i = section.instruction(row);
            if !act(self.element, i, pass, registers, work, self.table) {
                return Err(Refusal::Fault(steps));
            }
            steps += 1;
        }
        Ok(steps)
    }

    // The body in its passes: 1 to full - 1.
    #[tactic(auto, using(crate::proofs::PassLaws::pass_by_pass), unfolding(rules::specs::Machine::runs))]
    fn body_passes(
        self,
        mut steps: u64,
        body: Section,
        full: u64,
        registers: &mut Registers,
        work: &mut [u8],
    ) -> Result<u64, Refusal>
        ensures { stood result registers.new work.new ≡ runs vector_bytes (width_bytes self.entry.element.width) self.entry.table.now self.entry.budget (standing DONE steps (state registers.old work.old)) (passes (full - 1) 1 (instructions body.entry)) }
    {
        for j in 1..full {
            steps = self.section_pass(steps, body, VectorNumber(j), registers, work)?;
        }
        Ok(steps)
    }

    // The three sections, on registers that are all zero.
    pub(crate) fn sections(
        self,
        full: u64,
        prologue: Section,
        body: Section,
        epilogue: Section,
        work: &mut [u8],
    ) -> Result<u64, Refusal>
        ensures { ran result work.new ≡ ended (runs vector_bytes (width_bytes self.entry.element.width) self.entry.table.now self.entry.budget (start vector_bytes work.old) (trace (program full prologue.entry body.entry epilogue.entry))) }
    {
        let mut registers: Registers = [[0; VECTOR_BYTES]; REGISTERS as usize];
        let steps = self.section_pass(0, prologue, VectorNumber(0), &mut registers, work)?;
        let steps = self.body_passes(steps, body, full, &mut registers, work)?;
        self.section_pass(steps, epilogue, VectorNumber(full), &mut registers, work)
    }
}
