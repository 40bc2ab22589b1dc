// "For i from 0 upward, work[S+iD ..] takes the value of the tree at i": the loop itself, on a graph that passed the checks.
ghost use Rattle.std.specs.Prelude.{◌≡◌, length};
ghost use Rattle.rules.specs.Units.{width_bytes};
ghost use Rattle.rules.specs.Calls.{graph_plain};
ghost use Rattle.graph.specs.Headers.{graph_in};
ghost use Rattle.plain.specs.Evaluating.{Loopable};

use crate::values::Turn;
use graph::{Header, ROWS};
use rules::units::{ElementNumber, Width};
use vector_elements::Lane;

// The loop over elements of one type.
fn each_of<E: Lane>(header: Header, nodes: &[u64], left: &[u8; ROWS], work: &mut [u8], table: &[u8])
    requires wide { E.BYTES ≡ width_bytes header.width }
    requires passed { Loopable (graph_in header nodes.now) left.now (length work.old) (length table.now) }
    ensures { work.new ≡ graph_plain (graph_in header nodes.now) work.old table.now }
{
    let root = header.count - 1;
    for i in 0..header.elements {
        let turn = Turn {
            nodes,
            left,
            number: ElementNumber(i),
            work,
            table,
        };
        let found: E = turn.value(root);
        let at = turn.address_in::<E>(header.store);
        found.write(&mut work[at..at + E::BYTES]);
    }
}

pub(crate) fn each_element(
    header: Header,
    nodes: &[u64],
    left: &[u8; ROWS],
    work: &mut [u8],
    table: &[u8],
)
    requires { Loopable (graph_in header nodes.now) left.now (length work.old) (length table.now) }
    ensures { work.new ≡ graph_plain (graph_in header nodes.now) work.old table.now }
{
    match header.width {
        Width::One => each_of::<u8>(header, nodes, left, work, table),
        Width::Two => each_of::<u16>(header, nodes, left, work, table),
        Width::Four => each_of::<u32>(header, nodes, left, work, table),
        Width::Eight => each_of::<u64>(header, nodes, left, work, table),
    }
}
