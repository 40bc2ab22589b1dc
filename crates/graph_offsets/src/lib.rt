// The offset rules (document 001, section 3.3), and the offset check as a call of its own.
#![tactic(auto)]

mod nodes;
mod pairs;

ghost use Rattle.std.specs.Prelude.{◌≡◌};
ghost use Rattle.rules.specs.Limits.{vector_bytes};
ghost use Rattle.rules.specs.Answers.{of_result};
ghost use Rattle.rules.specs.Tables.{graph_of};
ghost use Rattle.rules.specs.Checks.{offset_check};
ghost use Rattle.rules.specs.Calls.{offset_checking};
ghost use Rattle.theory.proofs.FormLaws.{Formed};

use crate::nodes::judge_nodes;
use graph::Links;
pub use pairs::{agree, join};
use rules::answers::Refusal;
use rules::limits::{HEADER_LINE, V};
use rules::nodes::Offset;
use rules::units::ByteOffset;

// The rules of the nodes, then the root's.
fn judge(head: &[u64], nodes: &[u64]) -> Result<(), Refusal>
    requires { Formed vector_bytes (graph_of head.now nodes.now) }
    ensures { of_result result ≡ offset_check vector_bytes (graph_of head.now nodes.now) }
{
    let store = Offset::At(ByteOffset(graph::header_of(head).store.0 % V));
    let root = judge_nodes(&Links::new(head, nodes))?;
    if !agree(store, root) {
        return Err(Refusal::Offset(HEADER_LINE));
    }
    Ok(())
}

// ROOM, RANGE and SHAPE, then OFFSET.
pub fn offset_check(head: &[u64], nodes: &[u64]) -> Result<(), Refusal>
    ensures { of_result result ≡ offset_checking vector_bytes head.now nodes.now }
{
    graph::check(head, nodes)?;
    judge(head, nodes)
}
