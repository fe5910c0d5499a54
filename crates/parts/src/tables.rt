// Rows of a table, read and written one by its index.
ghost use Rattle.std.specs.Prelude.{◌≡◌, slice_set};
ghost use Rattle.std.specs.List.{slice_get};

// The row at an index, where there is one: `get` and `copied` under one equation, which proofs above cite.
pub fn at<T: Copy>(rows: &[T], i: usize) -> Option<T>
    ensures { result ≡ slice_get rows.now i }
{
    rows.get(i).copied()
}

// Writes the row at an index; past the end there is none, and nothing changes.
pub fn put<T: Copy>(rows: &mut [T], i: usize, row: T)
    ensures { rows.new ≡ slice_set rows.old i row }
{
    // By index: the check does not know a slice's elements after `get_mut`.
    if i < rows.len() {
        rows[i] = row;
    }
}
