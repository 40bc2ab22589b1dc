// An answer in one number, since a C function returns one.
ghost use Rattle.std.specs.Prelude.{◌≡◌};
ghost use Rattle.answers.specs.Given.{answer_of};
ghost use Rattle.sinkerjaw.specs.Packed.{packed};

use answers::Numbered;

// Where the parts of a packed answer begin, and how many steps it has room for.
const PLACE_UNIT: u64 = 256;

const STEPS_UNIT: u64 = 65536;

const STEPS_ROOM: u64 = 281474976710656;

pub(crate) fn packed(answer: Numbered) -> u64
    ensures { result ≡ packed (answer_of answer) }
{
    let number = answer.number % PLACE_UNIT;
    let place = PLACE_UNIT * (answer.place % PLACE_UNIT);
    let steps = STEPS_UNIT * (answer.steps % STEPS_ROOM);
    number + place + steps
}
