// Whether the plain loop may go: the first refusal, in the order of the numbers.
#![tactic(auto)]

ghost use Rattle.std.specs.Prelude.{◌≡◌};
ghost use Rattle.rules.specs.Limits.{vector_bytes};
ghost use Rattle.rules.specs.Answers.{of_result};
ghost use Rattle.rules.specs.Calls.{plain_answer};

use rules::answers::Refusal;

// The first refusal of a graph as if read, and of the windows that it runs on: WINDOW, ALIGN, BOUNDS.
#[tactic(auto, using(graph_lines::proofs::StepLaws::steps))]
pub fn judge(head: &[u64], nodes: &[u64], work_len: u64, table_len: u64) -> Result<(), Refusal>
    ensures { of_result result ≡ plain_answer vector_bytes head.now nodes.now work_len table_len }
{
    graph::check(head, nodes)?;
    let header = graph::header_of(head);
    graph_lines::windows(work_len, table_len)?;
    graph_lines::align(header, nodes)?;
    graph_lines::bounds(header, nodes, work_len, table_len)
}
