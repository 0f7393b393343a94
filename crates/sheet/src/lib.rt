// The sheet of a settled half hour: a header, and one record of comma-separated figures for each unit settled.
#![tactic(auto)]

ghost use Rattle.sheet.specs.Sheet.{Sheeted};

use crate::room::room_left;
use crate::writing::{put_header, put_rows};
use terms::codes::Kind;
use terms::refusal::Refusal;

mod room;
mod writing;

// A row of the sheet: one of a generation or negawatt contract's groups, or a retail contract, which has 0 for the group.
// The group is a number, since 0 is what the sheet shows there: an Option would only be turned back into it.
#[derive(Clone, Copy)]
pub struct SheetRow {
    pub kind: Kind,
    pub contract: u32,
    pub group: u32,
    pub plan: i64,
    pub measured: u64,
    pub imbalance: i64,
}

// Writes the sheet to the front of the buffer and answers its length, or refuses a buffer that is too short and leaves it as it was.
pub fn write_sheet(rows: &[SheetRow], buffer: &mut [u8]) -> Result<usize, Refusal>
    ensures { Sheeted rows.now buffer.old buffer.new result }
{
    room_left(rows, buffer.len()).ok_or(Refusal::ShortBuffer)?;
    let at = put_header(buffer);
    Ok(put_rows(rows, buffer, at))
}

#[cfg(test)]
mod tests {
    use super::*;

    // A group's row and a retail contract's, in a buffer with two bytes to spare and in one that is a byte too short.
    #[test]
    fn group_and_retailer(rt: HostRuntime) {
        let rows = [
            SheetRow {
                kind: Kind::Generation,
                contract: 11,
                group: 21,
                plan: 80,
                measured: 75,
                imbalance: 5,
            },
            SheetRow {
                kind: Kind::Retail,
                contract: 12,
                group: 0,
                plan: 80,
                measured: 82,
                imbalance: 2,
            },
        ];
        let sheet =
            b"kind,contract,group,plan,measured,imbalance\r\n1,11,21,80,75,5\r\n2,12,0,80,82,2\r\n##";
        let mut buffer = [b'#'; 80];
        assert_eq!(rt; write_sheet(&rows, &mut buffer), Ok(78));
        assert_eq!(rt; &buffer[..], &sheet[..]);
        let mut short = [b'#'; 77];
        assert_eq!(rt; write_sheet(&rows, &mut short), Err(Refusal::ShortBuffer));
        assert_eq!(rt; &short[..], &[b'#'; 77][..]);
    }
}
