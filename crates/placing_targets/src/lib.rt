// What a placing rule moves, and where. Every table is answered for, also one that does not pass as a graph: DOMINANT goes by its
// rows.
#![tactic(auto)]

mod dominant;

ghost use Rattle.std.specs.Prelude.{◌≡◌};
ghost use Rattle.rules.specs.Limits.{vector_bytes};
ghost use Rattle.rules.specs.Kinds.{rule_number};
ghost use Rattle.rules.specs.Trees.{node_at};
ghost use Rattle.rules.specs.declared.nodes.Offset.TheVariants.{Undefined};
ghost use Rattle.placing_targets.specs.Met.{dominant_in};
ghost use Rattle.placing_targets.specs.Rules.{at, moves, moves_of};

use crate::dominant::dominant;
use graph::Header;
use rules::kinds::Rule;
use rules::limits::V;
use rules::nodes::Offset;
use rules::units::ByteOffset;

// Where each load goes, undefined where it stays, and where the inputs of an op that disagree meet.
#[derive(Clone, Copy)]
pub struct Moves {
    pub loads: Offset,
    pub meeting: ByteOffset,
}

// Each load goes to g. The inputs of ops then agree; were they not to, they would meet there.
fn loads_to(g: ByteOffset) -> Moves
    ensures { result ≡ moves (at g.0) g.0 }
{
    Moves {
        loads: Offset::At(g),
        meeting: g,
    }
}

// Loads stay, and inputs that disagree go to g.
fn inputs_to(g: ByteOffset) -> Moves
    ensures { result ≡ moves Undefined g.0 }
{
    Moves {
        loads: Offset::Undefined,
        meeting: g,
    }
}

// Of a rule, for the nodes of a table.
#[tactic(auto, unfolding(crate::specs::Rules::moves_of))]
pub fn moves_by(rule: Rule, head: Header, nodes: &[u64]) -> Moves
    ensures { result ≡ moves_of vector_bytes head.store.0 (rule_number rule) (dominant_in vector_bytes head.store.0 (node_at nodes.now) head.count) }
{
    let zero = ByteOffset(0);
    let c = ByteOffset(head.store.0 % V);
    match rule {
        Rule::Zero => loads_to(zero),
        Rule::Eager => loads_to(c),
        Rule::Lazy => inputs_to(c),
        Rule::Dominant => inputs_to(dominant(head, nodes)),
    }
}

// Of a rule's number. One above the last is the last.
#[tactic(auto, using(crate::proofs::RuleLaws::last_for_others))]
pub fn moves_of(rule: u64, head: Header, nodes: &[u64]) -> Moves
    ensures { result ≡ moves_of vector_bytes head.store.0 rule (dominant_in vector_bytes head.store.0 (node_at nodes.now) head.count) }
{
    moves_by(Rule::try_from(rule).unwrap_or(Rule::Dominant), head, nodes)
}
