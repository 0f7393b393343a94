ghost use Rattle.std.specs.Prelude.{◌≡◌, ◌+◌, ◌<◌, ◌≤◌, List, [], ◌∷◌, ◌++◌, length, replicate, slice_set, ⊤};
ghost use Rattle.std.specs.Iterator.{DrainsIf, IsFinite, Yields};
ghost use Rattle.tables.specs.Listed.{full, listed, places};

use super::Table;

impl<T: Copy, const N: usize> Table<T, N> {
    // A table with no row listed; the blank row fills the places.
    pub fn new(blank: T) -> Table<T, N>
        ensures empty { listed result ≡ [] }
        ensures blank { places result ≡ replicate N blank }
    {
        Table {
            rows: [blank; N],
            len: 0,
        }
    }

    // The items as they come, each a listed row; the blank row fills the other places.
    // Callers are proved to have no more items than the table has places.
    pub fn collect<I: Iterator<Item = T>>(items: I, blank: T) -> Table<T, N>
        requires can { I.can_next items }
        requires ends { IsFinite (I.remaining items) }
        requires few { (xs : List T) (rest : I) → Yields I.next_gives items xs rest → length xs ≤ N }
        ensures { (xs : List T) × DrainsIf I.next_gives ⊤ items xs × (listed result ≡ xs) }
    {
        let mut table = Table::new(blank);
        table.extend(items);
        table
    }

    // The items as they come, each a row more, behind the listed ones. Callers are proved to have room for all of them.
    // A table that is handed on by value is extended where it stands: `collect` would move it once more.
    pub fn extend<I: Iterator<Item = T>>(&mut self, items: I)
        requires can { I.can_next items }
        requires ends { IsFinite (I.remaining items) }
        requires few { (xs : List T) (rest : I) → Yields I.next_gives items xs rest → length (listed self.old) + length xs ≤ N }
        ensures { (xs : List T) × DrainsIf I.next_gives ⊤ items xs × (listed self.new ≡ listed self.old ++ xs) }
    {
        for item in items {
            self.push(item);
        }
    }

    // The listed rows.
    pub fn as_slice(&self) -> &[T]
        ensures { result.now ≡ listed self.now }
    {
        &self.rows[..self.len]
    }

    // How many rows are listed.
    pub fn len(&self) -> usize
        ensures { result ≡ length (listed self.now) }
    {
        self.as_slice().len()
    }

    // Whether every place is taken by a listed row.
    pub fn is_full(&self) -> bool
        ensures { result ≡ full self.now }
    {
        self.len == N
    }

    // One row more, behind the listed ones. Callers are proved to have room.
    pub fn push(&mut self, row: T)
        requires { length (listed self.old) < N }
        ensures { listed self.new ≡ listed self.old ++ row ∷ [] }
    {
        self.rows[self.len] = row;
        self.len += 1;
    }

    // The i-th listed row becomes `row`; the others stay, in their order. Callers are proved to name a listed row.
    pub fn replace(&mut self, i: usize, row: T)
        requires { i < length (listed self.old) }
        ensures { listed self.new ≡ slice_set (listed self.old) i row }
    {
        self.rows[i] = row;
    }

    // The blank row fills every place, also those of rows that were listed, and no row is listed.
    // Place by place: a new table, assigned to this one, would be made beside it and copied.
    pub fn wipe(&mut self, blank: T)
        ensures empty { listed self.new ≡ [] }
        ensures blank { places self.new ≡ replicate N blank }
    {
        self.len = 0;
        for place in self.rows.iter_mut() {
            *place = blank;
        }
    }
}
