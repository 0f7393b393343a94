// Writing into a buffer from a place on. Each function answers the place behind what it wrote; callers are proved to have the room.
// Buffer and place are two parameters: a value of both would hold the `&mut`, and the contract would speak of the buffer through it, no plainer.
ghost use Rattle.std.specs.Prelude.{◌+◌, ◌≤◌, ◌++◌, length};
ghost use Rattle.sheet.specs.Put.{Put};
ghost use Rattle.sheet.specs.Sheet.{header_text, row_text, rows_text};

use crate::SheetRow;
use itoa::{Buffer, Integer};

fn put(text: &[u8], into: &mut [u8], at: usize) -> usize
    requires { at + length text.now ≤ length into.old }
    ensures { Put into.old into.new at text.now result }
{
    let end = at + text.len();
    into[at..end].copy_from_slice(text);
    end
}

// A figure in decimal, and what ends its field.
fn put_figure<I: Integer>(n: I, end: &[u8], into: &mut [u8], at: usize) -> usize
    requires { at + length (I.text n ++ end.now) ≤ length into.old }
    ensures { Put into.old into.new at (I.text n ++ end.now) result }
{
    let next = put(Buffer::new().format(n).as_bytes(), into, at);
    put(end, into, next)
}

pub(crate) const HEADER: &[u8] = b"kind,contract,group,plan,measured,imbalance\r\n";

pub(crate) fn put_header(into: &mut [u8]) -> usize
    requires { length header_text ≤ length into.old }
    ensures { Put into.old into.new 0 header_text result }
{
    put(HEADER, into, 0)
}

pub(crate) fn put_row(row: SheetRow, into: &mut [u8], at: usize) -> usize
    requires { at + length (row_text row) ≤ length into.old }
    ensures { Put into.old into.new at (row_text row) result }
{
    let contract = put_figure(row.kind.code(), b",", into, at);
    let group = put_figure(row.contract, b",", into, contract);
    let plan = put_figure(row.group, b",", into, group);
    let measured = put_figure(row.plan, b",", into, plan);
    let imbalance = put_figure(row.measured, b",", into, measured);
    put_figure(row.imbalance, b"\r\n", into, imbalance)
}

pub(crate) fn put_rows(rows: &[SheetRow], into: &mut [u8], mut at: usize) -> usize
    requires { at + length (rows_text rows.now) ≤ length into.old }
    ensures { Put into.old into.new at (rows_text rows.now) result }
{
    for row in rows {
        at = put_row(*row, into, at);
    }
    at
}
