// Reading and writing the tables that the caller lends.
ghost use Rattle.std.specs.Prelude.{◌≡◌, ◌<◌, ◌≤◌, length, replicate};
ghost use Rattle.house.specs.Tables.{closed_up, moved_up};

use replica::messages::Message;

// Writes the same into each row. A loop and no `fill`, which asks that cloning a row cannot fail; of a type parameter that is not known.
pub(crate) fn put_all<T: Copy>(rows: &mut [T], row: T)
    ensures { rows.new ≡ replicate (length rows.old) row }
{
    for place in rows {
        *place = row;
    }
}

// Each message behind the first moves up by one; the last also stays where it is.
fn close_up<C: Copy>(part: &mut [Message<C>])
    requires { 1 ≤ length part.old }
    ensures { part.new ≡ moved_up part.old }
{
    part.copy_within(1.., 0);
}

// The message at `p` leaves the first `n`, and those behind it move up by one.
pub(crate) fn take_out<C: Copy>(pool: &mut [Message<C>], p: usize, n: usize)
    requires { (p < n) × (n ≤ length pool.old) }
    ensures { pool.new ≡ closed_up p n pool.old }
{
    close_up(&mut pool[p..n]);
}
