// The value of the tree at an element: by recursion on node numbers, since a node's inputs have lower numbers than the node.
ghost use Rattle.std.specs.Prelude.{◌≡◌, ◌+◌, ◌*◌, ◌≤◌};
ghost use Rattle.rules.specs.Limits.{elements_most, address_most};
ghost use Rattle.rules.specs.Units.{byte_of_element};
ghost use Rattle.rules.specs.PlainLoop.{window};
ghost use Rattle.plain.specs.Evaluating.{HasLoad, loaded_at, HasValue, value_at};

use graph::ROWS;
use operations::elements::Element;
use rules::limits::WORK;
use rules::nodes::{LoadAt, Node};
use rules::units::{ByteOffset, ElementNumber};
use vector_elements::Lane;

// A turn of the loop: the graph's nodes and the left input of each op, the element's number, and the windows as they then stand.
#[derive(Clone, Copy)]
pub(crate) struct Turn<'a> {
    pub nodes: &'a [u64],
    pub left: &'a [u8; ROWS],
    pub number: ElementNumber,
    pub work: &'a [u8],
    pub table: &'a [u8],
}

// The byte at which element i of a stream begins, from the stream's start.
fn byte_of_element<E: Element>(i: ElementNumber) -> ByteOffset
    requires { i.0 ≤ elements_most }
    ensures { result ≡ byte_of_element E.BYTES i }
{
    ByteOffset(i.0 * E::BYTES as u64)
}

impl<'a> Turn<'a> {
    fn window(&self, which: u64) -> &'a [u8]
        ensures { result.now ≡ window which self.now.work.now self.now.table.now }
    {
        if which == WORK { self.work } else { self.table }
    }

    // The address of the turn's element in the stream that starts at an address.
    pub(crate) fn address_in<E: Element>(&self, start: ByteOffset) -> usize
        requires few { self.now.number.0 ≤ elements_most }
        requires near { start.0 ≤ address_most }
        ensures { result ≡ start.0 + self.now.number.0 * E.BYTES }
    {
        (start.0 + byte_of_element::<E>(self.number).0) as usize
    }

    // "A load at i reads D bytes at A+iD from the window as it then stands."
    #[tactic(auto, unfolding(rules::specs::Elements::element))]
    fn loaded<E: Lane>(&self, load: LoadAt) -> E
        requires { HasLoad E.BYTES self.now load }
        ensures { E.value result ≡ loaded_at E.BYTES self.now load }
    {
        let at = self.address_in::<E>(load.address);
        E::read(&self.window(load.window)[at..at + E::BYTES])
    }

    // The value of the tree that ends at node k.
    pub(crate) fn value<E: Lane>(&self, k: u8) -> E
        requires { HasValue E.BYTES self.now k }
        ensures { E.value result ≡ value_at E.BYTES self.now k }
    {
        match tables::node_at(self.nodes, k) {
            Node::Load(load) => self.loaded(load),
            Node::Splat(splat) => E::cut(splat),
            Node::Op(operation) => {
                let x: E = self.value(self.left[k as usize]);
                let y: E = self.value(k - 1);
                operations::operate_as(operation, x, y)
            }
            Node::Shift(_) => self.value(k - 1),
        }
    }
}
