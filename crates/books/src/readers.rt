// How an entry of a book's table is read from a file.
ghost use Rattle.std.specs.Prelude.{◌≡◌, ℕ, List, Option};
ghost use Rattle.books.specs.Readers.{read_into};

use crate::causes::Cause;

// A way to read groups of one kind from bytes.
pub trait EntryReader<G> {
    // The group that the bytes stand for, whether it keeps its rule or not, if they have the form of an entry.
    ghost form_of: { List ℕ → Option G };

    // Writes the entry that is lent to it whole, if the bytes have the form of one.
    fn read_into(bytes: &[u8], entry: &mut G) -> Result<(), Cause>
        ensures { (result, entry.new) ≡ read_into (form_of bytes.now) entry.old };
}
