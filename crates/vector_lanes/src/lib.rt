// The six operations on every pair of elements of two vectors, at every width by one function. Vectors go by value, and every
// function answers for every argument. The operation is handed to the loop as a constant, so that the compiler has a loop for each
// of the six at each width and makes vector instructions of it.
#![tactic(auto)]

ghost use Rattle.std.specs.Prelude.{◌≡◌};
ghost use Rattle.rules.specs.Limits.{vector_bytes};
ghost use Rattle.rules.specs.Vectors.{vop};
ghost use Rattle.operations.specs.Numbered.{operation_number};

use operations::Operation;
use vector_elements::{Lane, VECTOR_BYTES, Vector};

fn each<E: Lane>(operation: Operation, v1: &Vector, v2: &Vector) -> Vector
    ensures { result ≡ vop vector_bytes E.BYTES (operation_number operation) v1.now v2.now }
{
    let mut r = [0u8; VECTOR_BYTES];
    for k in 0..vector_elements::count::<E>() {
        let x: E = vector_elements::at(v1, k);
        let y: E = vector_elements::at(v2, k);
        let z = operations::operated(operation, x, y);
        vector_elements::put(&mut r, k, z);
    }
    r
}

// The operation on every pair of elements of E. An operation above the last is the last.
pub fn vop<E: Lane>(operation: u32, v1: Vector, v2: Vector) -> Vector
    ensures { result ≡ vop vector_bytes E.BYTES operation v1 v2 }
{
    let known = Operation::try_from(operation as u64).unwrap_or(Operation::SignedMaximum);
    match known {
        Operation::Add => each::<E>(Operation::Add, &v1, &v2),
        Operation::Subtract => each::<E>(Operation::Subtract, &v1, &v2),
        Operation::Minimum => each::<E>(Operation::Minimum, &v1, &v2),
        Operation::Maximum => each::<E>(Operation::Maximum, &v1, &v2),
        Operation::SignedMinimum => each::<E>(Operation::SignedMinimum, &v1, &v2),
        Operation::SignedMaximum => each::<E>(Operation::SignedMaximum, &v1, &v2),
    }
}
