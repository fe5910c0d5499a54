// Tables on the heap.
ghost use Rattle.std.specs.Prelude.{◌≡◌, replicate, IfOk};

use std::alloc::{AllocError, Global};

// So many rows of one content. (`vec!` clones, and no contract says that the clone of a row is the row.)
pub(crate) fn rows<T: Copy>(heap: Global, row: T, n: usize) -> Result<Vec<T>, AllocError>
    ensures { IfOk result (λ v. v.items ≡ replicate n row) }
{
    let mut rows = Vec::new(heap);
    rows.resize(n, row)?;
    Ok(rows)
}
