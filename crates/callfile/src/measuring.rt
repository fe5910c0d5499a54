// Whether a day can be written, and how long its file is.
ghost use Rattle.std.specs.Prelude.{◌≡◌, ◌+◌, ◌≤◌, length, Ok};
ghost use Rattle.std.specs.List.{flat_map};
ghost use Rattle.books.specs.Books.{table_groups};
ghost use Rattle.callfile.specs.Limits.{longest};
ghost use Rattle.callfile.specs.Faults.{at, ok_unless, or_fault, unless};
ghost use Rattle.callfile.specs.Format.{call_bytes};
ghost use Rattle.callfile.specs.Writing.{wide_fault, fitting, total_of, write_faults};

use crate::faults::{Fault, Part};
use crate::header::check_limits;
use crate::letters::{is_narrow, size_of_call};
use crate::limits::{ENTRY, HEADER, LONGEST};
use crate::summary::Summary;
use books::causes::Cause;
use cards::CardKind;
use parts::calls::Call;

// The length of the file, unless it is too long.
fn total_length<C: CardKind>(groups: usize, calls: &[Call<C>]) -> Result<usize, Fault>
    requires { groups ≤ table_groups }
    ensures { result ≡ or_fault (fitting (total_of C.CardKind.WIDTH C.CardKind.shape groups calls.now)) (at Cause.Size Part.File 0) }
{
    // A running sum that stops where the file is too long; with `try_fold` the closure would have to carry the contract of the walk.
    let mut total = HEADER + ENTRY * groups + C::WIDTH;
    for call in calls {
        total += size_of_call(call);
        if total > LONGEST {
            return Err(Fault::file(Cause::Size));
        }
    }
    Ok(total)
}

// 27: a call has a number that is too large; the calls begin at byte `start`.
fn check_narrow<C: CardKind>(calls: &[Call<C>], start: usize) -> Result<(), Fault>
    requires { start + length (flat_map (call_bytes C.CardKind.shape) calls.now) ≤ longest }
    ensures { result ≡ ok_unless (wide_fault C.CardKind.WIDTH start calls.now) }
{
    // A running sum beside the loop, as in writing.
    let mut byte = start;
    for call in calls {
        if !is_narrow(call) {
            return Err(Fault::new(Cause::BadCall, Part::Call, byte));
        }
        byte += size_of_call(call);
    }
    Ok(())
}

// The length of the file, or the first fault of writing it into so much room.
pub(crate) fn measured<C: CardKind>(
    day: &Summary<C>,
    calls: &[Call<C>],
    room: usize,
) -> Result<usize, Fault>
    requires { day.now.groups ≤ table_groups }
    ensures { result ≡ unless (write_faults C.CardKind.WIDTH (total_of C.CardKind.WIDTH C.CardKind.shape day.now.groups calls.now) day.now.founding.terminals day.now.founding.founder.0 day.now.groups calls.now room) (Ok (total_of C.CardKind.WIDTH C.CardKind.shape day.now.groups calls.now)) }
{
    let total = total_length(day.groups, calls)?;
    check_limits(day.founding.terminals, day.founding.founder.0, day.groups)?;
    check_narrow(calls, HEADER + ENTRY * day.groups + C::WIDTH)?;
    if room < total {
        return Err(Fault::file(Cause::NoRoom));
    }
    Ok(total)
}
