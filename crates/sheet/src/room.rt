// Whether a sheet has room, before any of it is written.
ghost use Rattle.std.specs.Prelude.{◌≡◌, ◌+◌, ◌≤◌, ◌↔◌, length, IsSome, IfSome};
ghost use Rattle.sheet.specs.Sheet.{row_text, sheet_text};

use crate::SheetRow;
use crate::writing::{HEADER, put_row};

// The length of a record, by writing it to the side: six figures of at most 20 bytes, five commas and a line end.
// A sum of the six figures' lengths would say a second time what a record consists of.
fn row_length(row: SheetRow) -> usize
    ensures { result ≡ length (row_text row) }
{
    put_row(row, &mut [0; 127], 0)
}

// What the sheet leaves of the room, if it has room. The room goes down by the length of each record, so that no sum of lengths can wrap.
pub(crate) fn room_left(rows: &[SheetRow], room: usize) -> Option<usize>
    ensures fits { IsSome result ↔ (length (sheet_text rows.now) ≤ room) }
    ensures rest { IfSome result (λ left. length (sheet_text rows.now) + left ≡ room) }
{
    let mut left = room.checked_sub(HEADER.len())?;
    for row in rows {
        left = left.checked_sub(row_length(*row))?;
    }
    Some(left)
}
