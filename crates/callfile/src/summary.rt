// A day in few words.
use parts::foundings::Founding;

// What a file says without its groups and calls: what the house is opened with, and how many groups and calls there are.
#[derive(Clone, Copy)]
pub struct Summary<C> {
    pub founding: Founding<C>,
    pub groups: usize,
    pub calls: usize,
}
