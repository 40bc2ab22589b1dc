// Where each node's inputs are. The nodes that wait are kept on a stack, by their numbers; the last of them is always the node
// just before, so that only an op's left input has to be remembered.
ghost use Rattle.std.specs.Prelude.{◌≡◌, ◌<◌, [], ◌∷◌, drop, length, get_or};
ghost use Rattle.rules.specs.Limits.{nodes_most};
ghost use Rattle.rules.specs.Trees.{node_at};
ghost use Rattle.graph.specs.Links.{lefts};

use rules::limits::NODES;
use std::marker::Model;

// Places for what is known of each of 64 nodes.
pub const ROWS: usize = NODES as usize;

// The numbers of the nodes that wait: the first so many of the places, the last number first in the definitions.
#[derive(Drop)]
struct Stack {
    numbers: [u8; ROWS],
    height: usize,
}

impl Model for Stack {
    ghost use Rattle.std.specs.Prelude.{List, ℕ, ◌≤◌};
    ghost use Rattle.rules.specs.Limits.{nodes_most};
    ghost use Rattle.graph.specs.Links.{listed};

    ghost Value = { List ℕ };

    ghost view = { λ s. listed s.numbers s.height };

    ghost invariant = { λ s. s.height ≤ nodes_most };
}

impl Stack {
    fn empty() -> Stack
        ensures { result ≡ [] }
    {
        Stack {
            numbers: [0; ROWS],
            height: 0,
        }
    }

    // The last but one of those that wait, 0 where there is none.
    #[tactic(auto, using(crate::proofs::LinkLaws::second_listed))]
    fn last_but_one(&self) -> u8
        ensures { result ≡ get_or self.now 1 0 }
    {
        if self.height < 2 {
            return 0;
        }
        self.numbers[self.height - 2]
    }

    // Takes so many off, all where there are fewer, and puts a number on.
    #[tactic(auto, using(crate::proofs::LinkLaws::listed_replace, crate::proofs::LinkLaws::length_listed))]
    fn replace(&mut self, taken: usize, number: u8)
        requires { length (drop taken self.old) < nodes_most }
        ensures { self.new ≡ number ∷ drop taken self.old }
    {
        let rest = self.height.saturating_sub(taken);
        self.numbers[rest] = number;
        self.height = rest + 1;
    }
}

// For each of the 64 rows the earlier of the last two nodes that wait before it: the left input, where the row is an op.
pub fn left_inputs(nodes: &[u64]) -> [u8; ROWS]
    ensures { result ≡ lefts (node_at nodes.now) nodes_most }
{
    let mut left = [0; ROWS];
    let mut waiting = Stack::empty();
    for k in 0..ROWS {
        left[k] = waiting.last_but_one();
        let number = k as u8;
        let taken = ranges::takes(tables::row_at(nodes, number).kind);
        waiting.replace(taken as usize, number);
    }
    left
}
