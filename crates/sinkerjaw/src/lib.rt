// The library for callers in C and Rust: each public call under one name, with numbers and lent tables only. A lent table is a
// pointer and then its length. docs/CALLERS.md has every call and every answer.
#![tactic(auto)]

mod packing;
mod programs;

ghost use Rattle.std.specs.Prelude.{◌≡◌};
ghost use Rattle.rules.specs.Limits.{vector_bytes};
ghost use Rattle.rules.specs.Calls.{reading, checking, offset_checking, looping, placing, translating, planning, running};
ghost use Rattle.sinkerjaw.specs.Packed.{packed};
ghost use Rattle.sinkerjaw.specs.Given.{packed_sheet, of_with_sheet, packed_work, of_with_work};
ghost use Rattle.sinkerjaw.specs.Programs.{head_of, packed_program, handed};

use crate::packing::packed;
use crate::programs::{PROGRAM_ENTRIES, hand_over};
use answers::Numbered;
use rules::answers::Refusal;
use rules::program::ProgramHead;

// Reads a loop sheet into two tables.
#[unsafe(no_mangle)]
pub extern "C" fn sinkerjaw_read(text: &[u8], head: &mut [u64], nodes: &mut [u64]) -> u64
    ensures { packed_sheet result head.new nodes.new ≡ of_with_sheet (reading text.now head.old nodes.old) }
{
    packed(Numbered::from(sheet::read(text, head, nodes)))
}

// Checks a sheet or graph as if it were read.
#[unsafe(no_mangle)]
pub extern "C" fn sinkerjaw_check(head: &[u64], nodes: &[u64]) -> u64
    ensures { result ≡ packed (checking vector_bytes head.now nodes.now) }
{
    packed(Numbered::from(graph::check(head, nodes)))
}

// Checks a graph as if it were read, and its offsets.
#[unsafe(no_mangle)]
pub extern "C" fn sinkerjaw_offset_check(head: &[u64], nodes: &[u64]) -> u64
    ensures { result ≡ packed (offset_checking vector_bytes head.now nodes.now) }
{
    packed(Numbered::from(graph_offsets::offset_check(head, nodes)))
}

// Does a loop element by element.
#[unsafe(no_mangle)]
pub extern "C" fn sinkerjaw_plain(head: &[u64], nodes: &[u64], work: &mut [u8], table: &[u8]) -> u64
    ensures { packed_work result work.new ≡ of_with_work (looping vector_bytes head.now nodes.now work.old table.now) }
{
    packed(Numbered::from(plain::run_loop(head, nodes, work, table)))
}

// Puts shifts into a bare sheet by one of four rules.
#[unsafe(no_mangle)]
pub extern "C" fn sinkerjaw_place(
    rule: u64,
    head: &[u64],
    nodes: &[u64],
    placed_head: &mut [u64],
    placed_nodes: &mut [u64],
) -> u64
    ensures { packed_sheet result placed_head.new placed_nodes.new ≡ of_with_sheet (placing vector_bytes rule head.now nodes.now placed_head.old placed_nodes.old) }
{
    packed(Numbered::from(placing::place(rule, head, nodes, placed_head, placed_nodes)))
}

// Translates a graph into a program for windows of so many bytes: its head in the program table, its sections in three more.
#[unsafe(no_mangle)]
pub extern "C" fn sinkerjaw_translate(
    head: &[u64],
    nodes: &[u64],
    work_len: u64,
    table_len: u64,
    program: &mut [u64],
    prologue: &mut [u32],
    body: &mut [u32],
    epilogue: &mut [u32],
) -> u64
    ensures { packed_program result program.new prologue.new body.new epilogue.new ≡ handed program.old prologue.old body.old epilogue.old (translating vector_bytes head.now nodes.now work_len table_len prologue.old body.old epilogue.old) }
{
    if program.len() < PROGRAM_ENTRIES {
        return packed(Numbered::from(Refusal::Room));
    }
    let made = translating::translate(head, nodes, work_len, table_len, prologue, body, epilogue);
    hand_over(made, program)
}

// Places a bare sheet by a rule and translates it, in one step.
#[unsafe(no_mangle)]
pub extern "C" fn sinkerjaw_plan(
    rule: u64,
    head: &[u64],
    nodes: &[u64],
    work_len: u64,
    table_len: u64,
    program: &mut [u64],
    prologue: &mut [u32],
    body: &mut [u32],
    epilogue: &mut [u32],
) -> u64
    ensures { packed_program result program.new prologue.new body.new epilogue.new ≡ handed program.old prologue.old body.old epilogue.old (planning vector_bytes rule head.now nodes.now work_len table_len prologue.old body.old epilogue.old) }
{
    if program.len() < PROGRAM_ENTRIES {
        return packed(Numbered::from(Refusal::Room));
    }
    let made = planning::plan(
        rule, head, nodes, work_len, table_len, prologue, body, epilogue,
    );
    hand_over(made, program)
}

// Runs a program: D, F, the three sections with their rows, the windows and the budget.
#[unsafe(no_mangle)]
pub extern "C" fn sinkerjaw_run(
    d: u64,
    f: u64,
    prologue: &[u32],
    prologue_rows: u64,
    body: &[u32],
    body_rows: u64,
    epilogue: &[u32],
    epilogue_rows: u64,
    work: &mut [u8],
    table: &[u8],
    budget: u64,
) -> u64
    ensures { packed_work result work.new ≡ of_with_work (running vector_bytes (head_of d f prologue_rows body_rows epilogue_rows) prologue.now body.now epilogue.now budget work.old table.now) }
{
    let head = ProgramHead {
        d,
        f,
        prologue: prologue_rows,
        body: body_rows,
        epilogue: epilogue_rows,
    };
    packed(Numbered::from(machine::run(head, prologue, body, epilogue, budget, work, table)))
}
