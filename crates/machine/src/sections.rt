// A section of a program: a lent table, and how many rows of it are instructions.
ghost use Rattle.std.specs.Prelude.{◌≡◌, ◌*◌, ◌<◌, ◌≤◌, length};
ghost use Rattle.rules.specs.Limits.{instruction_entries};
ghost use Rattle.rules.specs.Machine.{instruction_at};

use rules::limits::INSTRUCTION_ENTRIES;
use rules::program::Instruction;

// A section, all of whose rows are there.
#[derive(Clone, Copy)]
pub(crate) struct Section<'a> {
    pub entries: &'a [u32],
    pub rows: u64,
    ghost whole: { instruction_entries * rows ≤ length entries.now },
}

impl Section<'_> {
    pub(crate) fn instruction(self, row: u64) -> Instruction
        requires { row < self.rows }
        ensures { result ≡ instruction_at self.entry.entries.now row }
    {
        let at = INSTRUCTION_ENTRIES * row as usize;
        Instruction {
            kind: self.entries[at],
            destination: self.entries[at + 1],
            a: self.entries[at + 2],
            b: self.entries[at + 3],
            low: self.entries[at + 4],
            high: self.entries[at + 5],
        }
    }
}
