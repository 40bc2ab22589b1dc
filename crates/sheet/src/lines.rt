// The lines after the header, one after the other, and their nodes into the node table.
ghost use Rattle.std.specs.Prelude.{◌≡◌, [], ◌*◌, ◌≤◌, length};
ghost use Rattle.rules.specs.Limits.{nodes_most, row_entries};
ghost use Rattle.rules.specs.Units.{width_bytes};
ghost use Rattle.rules.specs.Tables.{padded};
ghost use Rattle.sheet.specs.Cursors.{Fresh};
ghost use Rattle.sheet.specs.Left.{LinesLeft};

use crate::line::line_at;
use rules::answers::Refusal;
use rules::sheet::Cursor;
use rules::units::Width;

// Reads the lines from the first on into a node table that is all zero, and gives how many nodes they are.
pub(crate) fn read_lines(
    text: &[u8],
    width: Width,
    first: Cursor,
    nodes: &mut [u64],
) -> Result<u64, Refusal>
    requires fresh { Fresh first }
    requires nodes_most_in_bounds { row_entries * nodes_most ≤ length nodes.old }
    requires nodes_value { nodes.old ≡ padded (length nodes.old) [] }
    ensures { LinesLeft text.now (width_bytes width) first (length nodes.old) result nodes.new }
{
    let mut here = first;
    while let Some(node) = line_at(text, width, here)? {
        tables::put_row(nodes, here.count as u8, node.row);
        here = node.there;
    }
    Ok(here.count)
}
