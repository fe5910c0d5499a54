// The seventeen calls on a house.
use crate::counts::{Group, Place, Terminal};

// One call; `C` is the kind of card that the house keeps.
#[derive(Clone, Copy)]
pub enum Call<C> {
    // The terminal takes part from now on.
    Enter(Terminal),
    // The first terminal asks the second to take it in.
    Knock(Terminal, Terminal),
    // The first terminal tells the second all that it holds.
    Send(Terminal, Terminal),
    // The message at this position of the pool arrives.
    Deliver(u32),
    // The message at this position of the pool is lost.
    Lose(u32),
    // The terminal stops for ever.
    Crash(Terminal),
    // A read begins at the terminal.
    Read(Terminal),
    // A write of the card begins at the terminal.
    Write(Terminal, C),
    // The query of the terminal's operation ends (query-fix).
    Settle(Terminal),
    // The propagation of the terminal's operation ends (prop-fix).
    Confirm(Terminal),
    // The terminal's operation ends, and its card is handed out.
    Collect(Terminal),
    // The house's list of places gains the group.
    Appoint(Group),
    // The terminal learns which group is listed at the place.
    Tell(Terminal, Place),
    // The terminal begins to retire the place (garbage collection of a configuration).
    Retire(Terminal, Place),
    // The query of the terminal's retirement ends.
    RetireSettle(Terminal),
    // The propagation of the terminal's retirement ends, and the place is retired.
    RetireConfirm(Terminal),
    // The terminal's retirement ends.
    RetireClose(Terminal),
}
