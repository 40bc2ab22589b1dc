// Placing (document 01, "Placing"): shifts put into a bare sheet by one of four rules, and the placed graph handed back.
#![tactic(auto)]

mod placed;
mod records;
mod rows;

ghost use Rattle.std.specs.Prelude.{◌≡◌};
ghost use Rattle.rules.specs.Limits.{vector_bytes};
ghost use Rattle.rules.specs.Calls.{placing};
ghost use Rattle.placing.specs.Handing.{sheet_given};

use rules::answers::Refusal;

// Places a bare sheet by a rule. ROOM leaves the lent tables as they are, every other refusal leaves them all zero.
#[tactic(auto, using(crate::proofs::AnswerLaws::leaving))]
pub fn place(
    rule: u64,
    head: &[u64],
    nodes: &[u64],
    placed_head: &mut [u64],
    placed_nodes: &mut [u64],
) -> Result<(), Refusal>
    ensures { sheet_given result placed_head.new placed_nodes.new ≡ placing vector_bytes rule head.now nodes.now placed_head.old placed_nodes.old }
{
    match refusals_placing::judge(rule, head, nodes, placed_head, placed_nodes) {
        Ok(rule) => {
            placed::hand_back(rule, head, nodes, placed_head, placed_nodes);
            Ok(())
        }
        Err(refusal) => {
            if !matches!(refusal, Refusal::Room) {
                tables::clear(placed_head);
                tables::clear(placed_nodes);
            }
            Err(refusal)
        }
    }
}
