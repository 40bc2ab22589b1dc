// A graph handed over as tables: its check by 3 and 4 "as if read", its header, and where each node's inputs are. Every call above
// stands on these.
#![tactic(auto)]

mod form;
mod headers;
mod linked;
mod links;

ghost use Rattle.std.specs.Prelude.{◌≡◌};
ghost use Rattle.rules.specs.Limits.{vector_bytes};
ghost use Rattle.rules.specs.Answers.{of_result};
ghost use Rattle.rules.specs.Calls.{checking};

pub use headers::{Header, header_of};
pub use linked::{LinkedNode, Links};
pub use links::{ROWS, left_inputs};
use rules::answers::Refusal;
use rules::limits::{HEAD_ENTRIES, NODE_ENTRIES};

// ROOM, then RANGE and SHAPE by line.
#[tactic(auto, using(std::proofs::lemmas::Bool::Decides::nat_tests), unfolding(rules::specs::Calls::checking, rules::specs::Answers::first))]
pub fn check(head: &[u64], nodes: &[u64]) -> Result<(), Refusal>
    ensures { of_result result ≡ checking vector_bytes head.now nodes.now }
{
    if head.len() < HEAD_ENTRIES || nodes.len() < NODE_ENTRIES {
        return Err(Refusal::Room);
    }
    form::form(head, nodes)
}
