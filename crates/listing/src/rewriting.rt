// A call file read and written again, for who wants to check a file from another hand.
ghost use Rattle.std.specs.Prelude.{◌≡◌, ◌↔◌, ℕ, List, length, IfOk, IfSome, Ok, Some, string_bytes, Result};
ghost use Rattle.callfile.specs.declared.faults.Fault.{Fault};
ghost use Rattle.listing.specs.Rewriting.{rewritten, rewriting};

use crate::lines::CopyLine;
use crate::reports::{Report, report_of};
use crate::rows::rows;
use books::book::Book;
use callfile::{Fault, GroupKind, GroupTable, Summary, write};
use cards::CardKind;
use parts::calls::Call;
use std::alloc::{AllocError, Global};

// How many bytes a writing gave, if they are those of the file.
fn same_bytes(written: Result<usize, Fault>, copy: &[u8], file: &[u8]) -> Option<usize>
    ensures whole { IfSome result (λ n. n ≡ length file.now) }
    ensures same { result ≡ Some (length file.now) ↔ (◌≡◌ {A = Result ℕ Fault × List ℕ} (written, copy.now) (Ok (length file.now), file.now)) }
{
    match written {
        Ok(bytes) if bytes == file.len() && copy == file => Some(bytes),
        _ => None,
    }
}

// The report that writes a day again, and says whether the bytes are those of the file.
struct Rewrite;

impl Report for Rewrite {
    ghost says = { rewritten };

    fn text<C: CardKind, G: GroupKind, B: GroupTable<G> + Book + Drop>(
        heap: Global,
        file: &[u8],
        book: B,
        day: Summary<C>,
        calls: &[Call<C>],
    ) -> Result<String, AllocError> {
        let mut copy = rows(heap, 0u8, file.len())?;
        let written = write::<C, G, B>(day.founding, &book, calls, &mut copy);
        let same = same_bytes(written, &copy, file);
        CopyLine(same).to_string(heap)
    }
}

// Reads a call file and writes it again: one line that says what is wrong with it, or that its bytes are the same.
pub fn rewriting(heap: Global, file: &[u8]) -> Result<String, AllocError>
    ensures { IfOk result (λ t. string_bytes t ≡ rewriting file.now) }
{
    report_of::<Rewrite>(heap, file)
}
