// The refusals that every call judges alike, 5 to 9, each over all lines at once: what is found is the first place at fault. The
// calls put them in their order.
#![tactic(auto)]

use rules::answers::Refusal;
use rules::limits::{V, WINDOW_MOST, WORK};

mod addresses;
mod lines;
mod rows;

ghost use Rattle.std.specs.Prelude.{◌≡◌};
ghost use Rattle.rules.specs.Limits.{vector_bytes};
ghost use Rattle.rules.specs.Answers.{of_result};
ghost use Rattle.rules.specs.Checks.{window_ok, window_check};

pub use addresses::{align, bounds, carry};
pub use rows::bare;

const TABLE: u64 = 1;

fn window_ok(len: u64) -> bool
    ensures { result ≡ window_ok vector_bytes len }
{
    len <= WINDOW_MOST && len % V == 0
}

// 6 WINDOW, of the windows' lengths.
#[tactic(auto, unfolding(rules::specs::Checks::window_check, rules::specs::Answers::first))]
pub fn windows(work_len: u64, table_len: u64) -> Result<(), Refusal>
    ensures { of_result result ≡ window_check vector_bytes work_len table_len }
{
    if !window_ok(work_len) {
        return Err(Refusal::Window(WORK));
    }
    if !window_ok(table_len) {
        return Err(Refusal::Window(TABLE));
    }
    Ok(())
}
