// What a house is opened with.
use crate::counts::Terminal;

// What a house is opened with beside its book: the number of its terminals, the founder among them, and the first card.
// `C` is the kind of card that the house keeps.
#[derive(Clone, Copy)]
pub struct Founding<C> {
    pub terminals: u32,
    pub founder: Terminal,
    pub first: C,
}
