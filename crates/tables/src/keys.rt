// Rows that a key finds: the first of them, and how many there are. Rows and key are given apart, since one list of rows is asked for one key after another.
ghost use Rattle.std.specs.Prelude.{◌≡◌, Bool};
ghost use Rattle.tables.specs.Apart.{has};
ghost use Rattle.tables.specs.Keys.{count_if, find, first_of};

// A row that a key fits or does not.
pub trait Keyed<K> {
    ghost fits: { K → Self → Bool };

    fn is(&self, key: K) -> bool
        ensures { result ≡ fits key self.now };
}

// The place of the first row that the key fits, or none where it fits no row.
pub fn find_first<K: Copy, T: Keyed<K>>(rows: &[T], key: K) -> Option<usize>
    ensures { result ≡ find (T.Keyed.fits key) rows.now }
{
    rows.iter().position(|row| row.is(key))
}

// The first row that the key fits, itself.
pub fn find_row<K: Copy, T: Copy + Keyed<K>>(rows: &[T], key: K) -> Option<T>
    ensures { result ≡ first_of (T.Keyed.fits key) rows.now }
{
    rows.iter().find(|row| row.is(key)).copied()
}

// Whether the key fits any row.
pub fn any_fits<K: Copy, T: Keyed<K>>(rows: &[T], key: K) -> bool
    ensures { result ≡ has (T.Keyed.fits key) rows.now }
{
    rows.iter().any(|row| row.is(key))
}

// How many rows the key fits.
pub fn count_fitting<K: Copy, T: Keyed<K>>(rows: &[T], key: K) -> usize
    ensures { result ≡ count_if (T.Keyed.fits key) rows.now }
{
    // a loop: as a chain, `filter` and `count`, it took two thirds more time
    let mut count: usize = 0;
    for row in rows {
        if row.is(key) {
            count += 1;
        }
    }
    count
}
