// The largest phase number heard from each terminal.
ghost use Rattle.std.specs.Prelude.{◌≡◌, slice_index_or};
ghost use Rattle.replica.specs.Numbers.{phase_number, raised};

use parts::counts::{PhaseNumber, Terminal};
use parts::tables::put;

// The number heard from a terminal; none was heard from one past the end.
pub(crate) fn number_from(latest: &[PhaseNumber], t: Terminal) -> PhaseNumber
    ensures { result ≡ slice_index_or latest.now t.0 (phase_number 0) }
{
    latest.get(t.0 as usize).copied().unwrap_or(PhaseNumber(0))
}

// The number heard from a terminal rises to `number` if that is larger.
pub(crate) fn raise(latest: &mut [PhaseNumber], t: Terminal, number: PhaseNumber)
    ensures { latest.new ≡ raised t.0 number latest.old }
{
    let largest = number_from(latest, t).max(number);
    put(latest, t.0 as usize, largest);
}
