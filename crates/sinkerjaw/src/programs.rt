// The program table: the head of a program, which C is lent a table for where Rattle has a struct.
ghost use Rattle.std.specs.Prelude.{◌≡◌, ◌≤◌, length};
ghost use Rattle.rules.specs.Answers.{of_result};
ghost use Rattle.rules.specs.Tables.{padded, table_left};
ghost use Rattle.translating.specs.Programs.{head_given};
ghost use Rattle.sinkerjaw.specs.Packed.{packed};
ghost use Rattle.sinkerjaw.specs.Programs.{program_entries, in_entries};

use crate::packing::packed;
use answers::Numbered;
use rules::answers::Refusal;
use rules::program::ProgramHead;

pub(crate) const PROGRAM_ENTRIES: usize = 5;

#[tactic(auto, using(crate::proofs::ProgramLaws::head_put))]
fn put_head(head: ProgramHead, program: &mut [u64])
    requires { program_entries ≤ length program.old }
    ensures { program.new ≡ padded (length program.old) (in_entries head) }
{
    tables::clear(program);
    let entries = [head.d, head.f, head.prologue, head.body, head.epilogue];
    program[..PROGRAM_ENTRIES].copy_from_slice(&entries);
}

// Leaves the head that a call made, or zeros where it refused. ROOM leaves the table as it is.
#[tactic(auto, using(crate::proofs::ProgramLaws::refused_left))]
fn leave_program(made: Result<ProgramHead, Refusal>, program: &mut [u64])
    requires { program_entries ≤ length program.old }
    ensures { program.new ≡ table_left (of_result made).number program.old (in_entries (head_given made)) }
{
    match made {
        Ok(head) => put_head(head, program),
        Err(Refusal::Room) => {}
        Err(_) => tables::clear(program),
    }
}

// Leaves what a call made, and packs its answer.
pub(crate) fn hand_over(made: Result<ProgramHead, Refusal>, program: &mut [u64]) -> u64
    requires { program_entries ≤ length program.old }
    ensures answer { result ≡ packed (of_result made) }
    ensures table { program.new ≡ table_left (of_result made).number program.old (in_entries (head_given made)) }
{
    leave_program(made, program);
    packed(Numbered::from(made.map(|_| ())))
}
