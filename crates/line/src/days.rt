// What playing a day comes to.
ghost use Rattle.std.specs.Prelude.{◌≡◌};

use house::calling::Answer;
use replica::refusals::Refusal;

// What a call came to: its answer, or the cause for which it was declined.
pub type Outcome<C> = Result<Answer<C>, Refusal>;

// Why a day was not played; the book is handed back.
#[derive(Drop)]
pub enum NotPlayed<B> {
    // The list for the outcomes is shorter than that of the calls; nothing was done.
    NoRoom(B),
    // The opening was declined.
    Declined(Refusal, B),
}

impl<B> From<(Refusal, B)> for NotPlayed<B> {
    ghost use Rattle.line.specs.declared.days.NotPlayed.TheVariants.{Declined};

    ghost from_gives = { λ declined r. r ≡ Declined declined.0 declined.1 };

    fn from(declined: (Refusal, B)) -> NotPlayed<B> {
        let (cause, book) = declined;
        NotPlayed::Declined(cause, book)
    }
}
