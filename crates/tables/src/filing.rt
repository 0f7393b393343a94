// Filing under a key: the row that the key fits is amended, or a new one comes last.
ghost use Rattle.std.specs.Prelude.{◌≡◌, ◌<◌, length, None};
ghost use Rattle.tables.specs.Filing.{Filed, upsert};
ghost use Rattle.tables.specs.Keys.{find};
ghost use Rattle.tables.specs.Listed.{listed};

use crate::Table;
use crate::keys::{Keyed, find_first};

// A row that is made from a key and a value, and amended by a later value.
pub trait Row<K, V>: Sized {
    ghost made: { K → V → Self };

    ghost amended: { V → Self → Self };

    fn make(key: K, value: V) -> Self
        ensures { result ≡ made key value };

    fn amend(self, value: V) -> Self
        ensures { result ≡ amended value self };
}

// The first row that the key fits is amended by the value; where it fits none, a new row of both comes last.
// All other rows stay, in their order. Callers are proved to have room where the key fits no row.
pub fn file_row<K: Copy, V, T: Copy + Keyed<K> + Row<K, V>, const N: usize>(
    table: &mut Table<T, N>,
    key: K,
    value: V,
)
    requires { find (T.Keyed.fits key) (listed table.old) ≡ None → length (listed table.old) < N }
    ensures rows { listed table.new ≡ upsert (T.Keyed.fits key) (T.Row.amended value) (T.Row.made key value) (listed table.old) }
    ensures change { Filed (T.Keyed.fits key) (T.Row.amended value) (T.Row.made key value) (listed table.old) (listed table.new) }
{
    let rows = table.as_slice();
    match find_first(rows, key) {
        Some(i) => {
            let old = rows[i];
            let row = old.amend(value);
            table.replace(i, row);
        }
        None => table.push(T::make(key, value)),
    }
}
