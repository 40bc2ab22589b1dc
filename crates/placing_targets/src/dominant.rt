// DOMINANT's offset: how often each offset is met among the loads and the store, and which is met most often.
ghost use Rattle.std.specs.Prelude.{◌≡◌, [], ◌∷◌};
ghost use Rattle.rules.specs.Limits.{vector_bytes};
ghost use Rattle.rules.specs.Offsets.{store_offset};
ghost use Rattle.rules.specs.Trees.{bytes, node_at};
ghost use Rattle.placing_targets.specs.Met.{met_in, Counted, count_at, Largest, dominant_in};

use graph::Header;
use rules::limits::V;
use rules::nodes::Node;
use rules::units::ByteOffset;

// An offset is below V.
const OFFSETS: usize = V as usize;

// How often each offset is met.
type Counts = [u16; OFFSETS];

// Each load is counted once, and the store once.
fn count_met(head: Header, nodes: &[u64]) -> Counts
    ensures { Counted vector_bytes (met_in vector_bytes (node_at nodes.now) (store_offset vector_bytes head.store.0 ∷ []) head.count) result }
{
    let mut counts = [0; OFFSETS];
    counts[(head.store.0 % V) as usize] = 1;
    for k in 0..head.count {
        if let Node::Load(load) = tables::node_at(nodes, k) {
            counts[(load.address.0 % V) as usize] += 1;
        }
    }
    counts
}

// The offset with the largest count, the smallest on a tie.
fn most_met(counts: &Counts) -> usize
    ensures { Largest (count_at counts.now) vector_bytes result }
{
    let mut most = 0;
    for x in 1..OFFSETS {
        if counts[most] < counts[x] {
            most = x;
        }
    }
    most
}

// The offset met most often among the loads and the store.
pub(crate) fn dominant(head: Header, nodes: &[u64]) -> ByteOffset
    ensures { result ≡ bytes (dominant_in vector_bytes head.store.0 (node_at nodes.now) head.count) }
{
    let counts = count_met(head, nodes);
    ByteOffset(most_met(&counts) as u64)
}
