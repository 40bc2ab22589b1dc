// The paper's numbers that several crates need, as code names them. specs/Limits.antt has them for the definitions, and a contract
// that cites one there is proved of code that uses one here.

// "A vector is V = 16 bytes"
pub const V: u64 = 16;

// The values of elements of 1, 2 and 4 bytes.
pub const ONE_MODULUS: u64 = 256;

pub const TWO_MODULUS: u64 = 65536;

pub const FOUR_MODULUS: u64 = 4294967296;

// "work (0), read and written"
pub const WORK: u64 = 0;

// "nodes in postfix order, 1 to 64 of them"
pub const NODES: u64 = 64;

// Entries of a sheet's head, and of a table of 64 nodes, three a row.
pub const HEAD_ENTRIES: usize = 10;

pub const NODE_ENTRIES: usize = 192;

// Entries of an instruction, and of a section of 1,024.
pub const INSTRUCTION_ENTRIES: usize = 6;

pub const SECTION_ENTRIES: usize = 6144;

// The header, which says where to store, is line 1; the nodes follow it.
pub const HEADER_LINE: u64 = 1;

pub const FIRST_NODE_LINE: u64 = 2;

// Placing rules are 0 to 3.
pub const RULES_MOST: u64 = 3;

// "the first 2,048 bytes of standard input"
pub const TEXT_MOST: usize = 2048;

// A line of a sheet, and a printed one, ends with this.
pub const LINE_FEED: u8 = 10;

// The kinds of the frames that are nodes.
pub const LOAD_KIND: u64 = 1;

pub const SPLAT_KIND: u64 = 2;

pub const OP_KIND: u64 = 3;

pub const SHIFT_KIND: u64 = 4;

// Where a sheet's head has D, n, S and the number of nodes.
pub const HEAD_D: usize = 0;

pub const HEAD_N: usize = 1;

pub const HEAD_S: usize = 2;

pub const HEAD_COUNT: usize = 3;

// Windows are "0 to 65,536" bytes.
pub const WINDOW_MOST: u64 = 65536;

// The number of the block at address 0: an address is held with 2^31 added.
pub const BLOCK_ZERO: u64 = 134217728;

// A splat's value is held in two parts, the lower below 2^32.
pub const LOW_VALUES: u64 = 4294967296;
