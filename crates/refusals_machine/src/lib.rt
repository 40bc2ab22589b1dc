// What is found before the first step of a run: ROOM, then WINDOW, work first, then a FAULT at the start.
#![tactic(auto)]

ghost use Rattle.std.specs.Prelude.{◌≡◌, ◌||◌, IfOk, length};
ghost use Rattle.rules.specs.Limits.{vector_bytes};
ghost use Rattle.rules.specs.Units.{width_bytes};
ghost use Rattle.rules.specs.Answers.{of_result};
ghost use Rattle.rules.specs.Checks.{room_check, section_long, start_fault};
ghost use Rattle.rules.specs.Calls.{start_answer};

use rules::answers::Refusal;
use rules::limits::INSTRUCTION_ENTRIES;
use rules::program::ProgramHead;
use rules::units::Width;

const SECTION_MOST: u64 = 1024;

const FULL_MOST: u64 = 2048;

// Whether a section of so many instructions is too long, or longer than its table.
fn section_long(rows: u64, section: &[u32]) -> bool
    ensures { result ≡ section_long rows section.now }
{
    SECTION_MOST < rows || section.len() < INSTRUCTION_ENTRIES * rows as usize
}

// ROOM: one of the sections is too long.
fn room(head: ProgramHead, prologue: &[u32], body: &[u32], epilogue: &[u32]) -> Result<(), Refusal>
    ensures { of_result result ≡ room_check (section_long head.prologue prologue.now || section_long head.body body.now || section_long head.epilogue epilogue.now) }
{
    if section_long(head.prologue, prologue)
        || section_long(head.body, body)
        || section_long(head.epilogue, epilogue)
    {
        return Err(Refusal::Room);
    }
    Ok(())
}

// A FAULT at the start, for a D that is no width or an F above 2,048.
#[tactic(auto, using(std::proofs::lemmas::Bool::Decides::nat_tests), unfolding(rules::specs::Units::is_width, rules::specs::Units::width_of))]
fn start_width(head: ProgramHead) -> Result<Width, Refusal>
    ensures result_value { of_result result ≡ start_fault vector_bytes head }
    ensures widens { IfOk result (λ width. width_bytes width ≡ head.d) }
{
    if FULL_MOST < head.f {
        return Err(Refusal::Fault(0));
    }
    Width::try_from(head.d).map_err(|_| Refusal::Fault(0))
}

// What is found before the first step, or the width that the run goes on.
#[tactic(auto, using(graph_lines::proofs::StepLaws::steps))]
pub fn begin(
    head: ProgramHead,
    prologue: &[u32],
    body: &[u32],
    epilogue: &[u32],
    work: &[u8],
    table: &[u8],
) -> Result<Width, Refusal>
    ensures result_value { of_result result ≡ start_answer vector_bytes head prologue.now body.now epilogue.now (length work.now) (length table.now) }
    ensures widens { IfOk result (λ width. width_bytes width ≡ head.d) }
{
    room(head, prologue, body, epilogue)?;
    graph_lines::windows(work.len() as u64, table.len() as u64)?;
    start_width(head)
}
