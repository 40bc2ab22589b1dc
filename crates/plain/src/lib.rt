// The plain loop (document 01, "Plain loop"): what a loop sheet means, done element by element.
#![tactic(auto)]

mod looping;
mod values;

ghost use Rattle.std.specs.Prelude.{◌≡◌};
ghost use Rattle.rules.specs.Limits.{vector_bytes};
ghost use Rattle.rules.specs.Calls.{looping};
ghost use Rattle.plain.specs.Looping.{looped};

use rules::answers::Refusal;

// Runs the loop of a sheet or graph handed over as tables, on the two windows. A refusal leaves work as it was.
pub fn run_loop(head: &[u64], nodes: &[u64], work: &mut [u8], table: &[u8]) -> Result<(), Refusal>
    ensures { looped result work.new ≡ looping vector_bytes head.now nodes.now work.old table.now }
{
    refusals_plain::judge(head, nodes, work.len() as u64, table.len() as u64)?;
    let left = graph::left_inputs(nodes);
    looping::each_element(graph::header_of(head), nodes, &left, work, table);
    Ok(())
}
