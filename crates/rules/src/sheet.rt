// A loop sheet as it is read: a line's frame, its row, and where reading stands.
// How many digits a kind's fields have, in the order of the line: 0 for a field that the kind has not.
#[derive(Clone, Copy)]
pub struct FieldDigits {
    pub x: u64,
    pub y: u64,
    pub z: u64,
}

// A frame: its kind, its fields in the order of the line, 0 for a field that the kind has not, and the place past its
// line feed.
#[derive(Clone, Copy)]
pub struct Fields {
    pub kind: u64,
    pub x: u64,
    pub y: u64,
    pub z: u64,
    pub next: u64,
}

// A row of the node table: a node frame's kind and fields.
#[derive(Clone, Copy)]
pub struct Row {
    pub kind: u64,
    pub x: u64,
    pub y: u64,
}

// Where reading stands: the place in the text, the line's number, the node frames read, and how many of them wait.
#[derive(Clone, Copy)]
pub struct Cursor {
    pub at: u64,
    pub line: u64,
    pub count: u64,
    pub waiting: u64,
}

// A node frame as it is read: its row, and where reading stands after it.
#[derive(Clone, Copy)]
pub struct NodeRead {
    pub row: Row,
    pub there: Cursor,
}
