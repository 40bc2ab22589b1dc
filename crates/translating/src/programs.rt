// The program of a graph that passed: F and e, and which of the three sections there are.
ghost use Rattle.std.specs.Prelude.{◌≤◌};
ghost use Rattle.rules.specs.Limits.{vector_bytes, elements_most};
ghost use Rattle.rules.specs.Units.{width_bytes};
ghost use Rattle.translating.specs.Writing.{Roomy, Root, root_of};
ghost use Rattle.translating.specs.Programs.{Emitted, headed};

use crate::counts::split_stream;
use crate::sections::{put_body, put_epilogue, put_only, put_prologue};
use graph::{Header, Links};
use rules::program::ProgramHead;
use rules::units::ElementNumber;

// Writes the sections from their first rows on, and gives the program's head.
pub(crate) fn emit(
    header: Header,
    links: &Links,
    prologue: &mut [u32],
    body: &mut [u32],
    epilogue: &mut [u32],
) -> ProgramHead
    requires ready { (header.elements ≤ elements_most) × Root (root_of links.now) header.store.0 }
    requires roomy { Roomy prologue.old × Roomy body.old × Roomy epilogue.old }
    ensures { Emitted (width_bytes header.width) (headed vector_bytes header links.now) result prologue.old body.old epilogue.old prologue.new body.new epilogue.new }
{
    let width = header.width;
    let store = header.store;
    let elements = ElementNumber(header.elements);
    let split = split_stream(width, elements, store);
    let mut program = ProgramHead {
        d: width.bytes(),
        f: split.full.0,
        prologue: 0,
        body: 0,
        epilogue: 0,
    };
    if elements.0 == 0 {
        return program;
    }
    if split.full.0 == 0 {
        program.prologue = put_only(links, store, width, elements, prologue) as u64;
        return program;
    }
    program.prologue = put_prologue(links, store, prologue) as u64;
    program.body = put_body(links, store, split.full, body) as u64;
    program.epilogue = put_epilogue(links, store, width, split.rest, epilogue) as u64;
    program
}
