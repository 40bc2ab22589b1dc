// The figures of a line: of a refusal its number and place; on done the shifts, G and the steps of the loop's tree, taken from its
// tables and its program.
ghost use Rattle.std.specs.Prelude.{◌≡◌};
ghost use Rattle.rules.specs.Trees.{node_at};
ghost use Rattle.rules.specs.Printing.{placed_figures, drawn_figures};
ghost use Rattle.sheet.specs.Left.{sheet_left};
ghost use Rattle.printing.specs.Figuring.{told, shift_of, shifts_in, steps_in, Countable, tree_figures};

use answers::{DONE, Numbered};
use rules::answers::Refusal;
use rules::limits::{HEAD_ENTRIES, NODE_ENTRIES, SECTION_ENTRIES, WINDOW_MOST};
use rules::nodes::Node;
use rules::printing::Figures;
use rules::program::ProgramHead;

// What a line says of a loop: its figures, or a refusal's number and place alone.
pub(crate) fn told(figures: Result<Figures, Refusal>) -> Figures
    ensures { result ≡ told figures }
{
    match figures {
        Ok(figures) => figures,
        Err(refusal) => {
            let answer = Numbered::from(refusal);
            Figures {
                answer: answer.number,
                place: answer.place,
                shifts: 0,
                size: 0,
                steps: 0,
            }
        }
    }
}

// How many shifts a node is.
fn shift_of(node: Node) -> u64
    ensures { result ≡ shift_of node }
{
    match node {
        Node::Shift(_) => 1,
        _ => 0,
    }
}

fn count_shifts(nodes: &[u64], count: u8) -> u64
    ensures { result ≡ shifts_in (node_at nodes.now) count }
{
    let mut shifts = 0;
    for k in 0..count {
        shifts += shift_of(tables::node_at(nodes, k));
    }
    shifts
}

fn count_steps(program: ProgramHead) -> u64
    requires { Countable program }
    ensures { result ≡ steps_in program }
{
    program.prologue + program.f.saturating_sub(1) * program.body + program.epilogue
}

fn tree_figures(head: &[u64], nodes: &[u64], program: ProgramHead) -> Figures
    requires { Countable program }
    ensures { result ≡ tree_figures head.now nodes.now program }
{
    let header = graph::header_of(head);
    let shifts = count_shifts(nodes, header.count);
    let size = graph_size::size(head, nodes);
    let steps = count_steps(program);
    Figures {
        answer: DONE,
        place: 0,
        shifts,
        size,
        steps,
    }
}

// Of the loop as it is drawn: what reading answered, else translating.
pub(crate) fn drawn_figures(
    answer: Result<(), Refusal>,
    head: &[u64],
    nodes: &[u64],
) -> Result<Figures, Refusal>
    ensures { told result ≡ drawn_figures (sheet_left answer head.now nodes.now) }
{
    answer?;
    let mut prologue = [0u32; SECTION_ENTRIES];
    let mut body = [0u32; SECTION_ENTRIES];
    let mut epilogue = [0u32; SECTION_ENTRIES];
    let program = translating::translate(
        head,
        nodes,
        WINDOW_MOST,
        WINDOW_MOST,
        &mut prologue,
        &mut body,
        &mut epilogue,
    )?;
    Ok(tree_figures(head, nodes, program))
}

// Of the loop placed by a rule: what reading answered, else the one-step call; and the placed tables.
pub(crate) fn placed_figures(
    answer: Result<(), Refusal>,
    head: &[u64],
    nodes: &[u64],
    rule: u64,
) -> Result<Figures, Refusal>
    ensures { told result ≡ placed_figures (sheet_left answer head.now nodes.now) rule }
{
    answer?;
    let mut prologue = [0u32; SECTION_ENTRIES];
    let mut body = [0u32; SECTION_ENTRIES];
    let mut epilogue = [0u32; SECTION_ENTRIES];
    let program = planning::plan(
        rule,
        head,
        nodes,
        WINDOW_MOST,
        WINDOW_MOST,
        &mut prologue,
        &mut body,
        &mut epilogue,
    )?;
    let mut placed_head = [0u64; HEAD_ENTRIES];
    let mut placed_nodes = [0u64; NODE_ENTRIES];
    placing::place(rule, head, nodes, &mut placed_head, &mut placed_nodes)?;
    Ok(tree_figures(&placed_head, &placed_nodes, program))
}
