// What a house holds beside the tables that the caller lends it.
ghost use Rattle.std.specs.Prelude.{◌≡◌, ◌≤◌, length};
ghost use Rattle.parts.specs.Limits.{terminals, places as places_limit, messages};

use parts::counts::{Group, PLACES, Terminal};

// A house over a book of groups. Each call is lent the two tables as two parameters: one struct of both would hold two `&mut`, and
// each contract would owe a second clause, that they still are the caller's tables.
#[derive(Drop)]
pub struct House<B> {
    // The book that the house was opened with; it never changes.
    pub(crate) book: B,
    // The number of terminals.
    pub(crate) size: u32,
    pub(crate) founder: Terminal,
    // How many messages the pool holds: the first ones of the caller's table. A count, since the house takes no memory of its own.
    pub(crate) waiting: usize,
    // The groups in the order of their places, of which the first `places` are listed. An array and a count, for the same reason.
    pub(crate) listed: [Group; PLACES],
    pub(crate) places: usize,
    ghost some: { 1 ≤ size },
    ghost few: { size ≤ terminals },
    ghost room: { waiting ≤ messages },
    ghost begun: { 1 ≤ places },
    ghost within: { places ≤ places_limit },
    ghost whole: { length listed ≡ places_limit },
}
