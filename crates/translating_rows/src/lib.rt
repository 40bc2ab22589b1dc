// Writing a section: a writer puts instructions into its rows, one after the other. Instruction k of a section writes register k,
// so each method gives the register that the row it wrote is for. Every argument is answered for: a row that does not lie in the
// section is not written, and what no entry can hold is cut to its low 32 bits.
#![tactic(auto)]

ghost use Rattle.std.specs.Prelude.{◌≡◌, ◌+◌, ◌*◌, ◌/◌, [], length};
ghost use Rattle.rules.specs.Limits.{vector_bytes, low_values};
ghost use Rattle.rules.specs.Machine.{Splat, Op, Splice};
ghost use Rattle.rules.specs.Code.{pair_up};
ghost use Rattle.rules.specs.Answers.{of_refusal};
ghost use Rattle.rules.specs.Tables.{padded, table_left};
ghost use Rattle.translating_rows.specs.Putting.{cut, row_put, load_of, pair_of, store_of, Puts};

use rules::answers::Refusal;
use rules::kinds::InstructionKind;
use rules::limits::{BLOCK_ZERO, INSTRUCTION_ENTRIES, LOW_VALUES, V};
use rules::nodes::{LoadAt, ShiftBy};
use rules::program::Instruction;
use rules::units::{ByteOffset, VectorNumber};

const VECTOR: u32 = 16;

// A section, and the row that is written next.
#[derive(Drop)]
pub struct Writer<'a> {
    pub section: &'a mut [u32],
    pub row: u32,
}

impl<'a> Writer<'a> {
    pub fn new(section: &'a mut [u32]) -> Writer<'a>
        ensures same_section { result.section.ghost_name ≡ section.entry.ghost_name }
        ensures entries { result.section.now ≡ section.old }
        ensures first_row { result.row ≡ 0 }
    {
        Writer { section, row: 0 }
    }

    fn put(&mut self, i: Instruction)
        ensures same_section { self.new.section.ghost_name ≡ self.old.section.ghost_name }
        ensures written { Puts self.old self.new i }
    {
        let row = self.row;
        self.row = row.wrapping_add(1);
        put_row(self.section, row, i);
    }

    pub fn load(&mut self, from: LoadAt, blocks: VectorNumber) -> u32
        ensures same_section { self.new.section.ghost_name ≡ self.old.section.ghost_name }
        ensures written { Puts self.old self.new (load_of self.old.row from blocks.0) }
        ensures register { result ≡ self.old.row }
    {
        let register = self.row;
        self.put(Instruction {
            kind: InstructionKind::Load.number(),
            destination: register,
            a: low_bits(from.window),
            b: 0,
            low: moved(from.address, blocks),
            high: 0,
        });
        register
    }

    pub fn splat(&mut self, value: u64) -> u32
        ensures same_section { self.new.section.ghost_name ≡ self.old.section.ghost_name }
        ensures written { Puts self.old self.new (Splat self.old.row (cut value) (value / low_values)) }
        ensures register { result ≡ self.old.row }
    {
        let register = self.row;
        self.put(Instruction {
            kind: InstructionKind::Splat.number(),
            destination: register,
            a: 0,
            b: 0,
            low: low_bits(value),
            high: (value / LOW_VALUES) as u32,
        });
        register
    }

    pub fn op(&mut self, operation: u64, left: u32, right: u32) -> u32
        ensures same_section { self.new.section.ghost_name ≡ self.old.section.ghost_name }
        ensures written { Puts self.old self.new (Op self.old.row (cut operation) left right) }
        ensures register { result ≡ self.old.row }
    {
        let register = self.row;
        self.put(Instruction {
            kind: InstructionKind::Op.number(),
            destination: register,
            a: left,
            b: right,
            low: low_bits(operation),
            high: 0,
        });
        register
    }

    pub fn pair(&mut self, by: ShiftBy, this: u32, other: u32) -> u32
        ensures same_section { self.new.section.ghost_name ≡ self.old.section.ghost_name }
        ensures written { Puts self.old self.new (pair_of self.old.row by this other) }
        ensures register { result ≡ self.old.row }
    {
        let register = self.row;
        let from = low_bits(by.from.0);
        let to = low_bits(by.to.0);
        self.put(pair_up(from, to, register, this, other));
        register
    }

    pub fn splice(&mut self, first: u32, second: u32, amount: ByteOffset) -> u32
        ensures same_section { self.new.section.ghost_name ≡ self.old.section.ghost_name }
        ensures written { Puts self.old self.new (Splice self.old.row first second (cut amount.0)) }
        ensures register { result ≡ self.old.row }
    {
        let register = self.row;
        self.put(Instruction {
            kind: InstructionKind::Splice.number(),
            destination: register,
            a: first,
            b: second,
            low: low_bits(amount.0),
            high: 0,
        });
        register
    }

    // A store writes no register.
    pub fn store(&mut self, source: u32, store: ByteOffset)
        ensures same_section { self.new.section.ghost_name ≡ self.old.section.ghost_name }
        ensures written { Puts self.old self.new (store_of source store.0) }
    {
        self.put(Instruction {
            kind: InstructionKind::Store.number(),
            destination: 0,
            a: source,
            b: 0,
            low: moved(store, VectorNumber(BLOCK_ZERO)),
            high: 0,
        });
    }
}

// A row that does not lie in the section is not written. Its entries are written one by one: of an array of them the compiler makes
// a copy in memory first, and a row waits for it.
fn put_row(section: &mut [u32], row: u32, i: Instruction)
    ensures { section.new ≡ row_put section.old row i }
{
    let at = INSTRUCTION_ENTRIES * (row as usize);
    let end = at + INSTRUCTION_ENTRIES;
    if end <= section.len() {
        section[at] = i.kind;
        section[at + 1] = i.destination;
        section[at + 2] = i.a;
        section[at + 3] = i.b;
        section[at + 4] = i.low;
        section[at + 5] = i.high;
    }
}

// The low 32 bits.
fn low_bits(value: u64) -> u32
    ensures { result ≡ cut value }
{
    (value % LOW_VALUES) as u32
}

// An address with so many vectors added, as an instruction holds it.
fn moved(address: ByteOffset, blocks: VectorNumber) -> u32
    ensures { result ≡ cut (address.0 + vector_bytes * blocks.0) }
{
    low_bits(address.0.wrapping_add(V.wrapping_mul(blocks.0)))
}

// The one maker of a vshiftpair: of this and next for a left shift, of previous and this for a right one. No shift goes further than
// a vector.
fn pair_up(from: u32, to: u32, destination: u32, this: u32, other: u32) -> Instruction
    ensures { result ≡ pair_up vector_bytes from to destination this other }
{
    let kind = InstructionKind::Pair.number();
    if to < from {
        return Instruction {
            kind,
            destination,
            a: this,
            b: other,
            low: from - to,
            high: 0,
        };
    }
    Instruction {
        kind,
        destination,
        a: other,
        b: this,
        low: VECTOR.saturating_sub(to - from),
        high: 0,
    }
}

// Sets every entry of the sections to 0.
pub fn clear(prologue: &mut [u32], body: &mut [u32], epilogue: &mut [u32])
    ensures prologue_zero { prologue.new ≡ padded (length prologue.old) [] }
    ensures body_zero { body.new ≡ padded (length body.old) [] }
    ensures epilogue_zero { epilogue.new ≡ padded (length epilogue.old) [] }
{
    prologue.fill(0);
    body.fill(0);
    epilogue.fill(0);
}

// What a refused call leaves of the sections: ROOM leaves them as they are, another refusal all zero.
pub fn refuse(refusal: Refusal, prologue: &mut [u32], body: &mut [u32], epilogue: &mut [u32])
    ensures prologue_left { prologue.new ≡ table_left (of_refusal refusal).number prologue.old [] }
    ensures body_left { body.new ≡ table_left (of_refusal refusal).number body.old [] }
    ensures epilogue_left { epilogue.new ≡ table_left (of_refusal refusal).number epilogue.old [] }
{
    if refusal != Refusal::Room {
        clear(prologue, body, epilogue);
    }
}
