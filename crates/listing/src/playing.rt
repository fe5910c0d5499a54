// A day played, and listed call by call.
ghost use Rattle.std.specs.Prelude.{◌≡◌, List, IfOk, string_bytes};
ghost use Rattle.replica.specs.declared.messages.Message.{Message};
ghost use Rattle.replica.specs.declared.replicas.Replica.{Replica};
ghost use Rattle.line.specs.Runs.{played_state};
ghost use Rattle.listing.specs.Listings.{played_text, day_text, played, Listing as IsListing};

use crate::lines::{OpenLine, PlayedDay};
use crate::reports::{Report, report_of};
use crate::rows::rows;
use books::book::Book;
use callfile::{GroupKind, GroupTable, Summary};
use cards::CardKind;
use house::calling::Answer;
use house::house::House;
use line::days::{NotPlayed, Outcome};
use line::plays::play;
use parts::calls::Call;
use parts::counts::{MESSAGES, Terminal};
use replica::messages::{Body, Message};
use replica::replicas::Replica;
use std::alloc::{AllocError, Global};

// The text of what playing a day came to.
fn played_text<C: CardKind, B: Book + Drop>(
    heap: Global,
    terminals: u32,
    calls: &[Call<C>],
    outcomes: &[Outcome<C>],
    played: Result<House<B>, NotPlayed<B>>,
) -> Result<String, AllocError>
    ensures { IfOk result (λ t. (rs : List (Replica C)) (ms : List (Message C)) → string_bytes t ≡ played_text C.CardKind.shape terminals calls.now (played_state played rs ms) outcomes.now) }
{
    match played {
        Ok(_house) => PlayedDay {
            terminals,
            calls,
            outcomes,
        }
        .to_string(heap),
        Err(NotPlayed::Declined(cause, _)) => OpenLine(cause).to_string(heap),
        Err(NotPlayed::NoRoom(_)) => Ok(String::new(heap)),
    }
}

// Plays the calls of a day over the book and lists them.
fn day_listing<C: CardKind, B: Book + Drop>(
    heap: Global,
    book: B,
    day: &Summary<C>,
    calls: &[Call<C>],
) -> Result<String, AllocError>
    ensures { IfOk result (λ t. string_bytes t ≡ day_text C.CardKind.shape B.Book.size B.Book.members_of B.Book.reads B.Book.writes book day.now.founding.terminals day.now.founding.founder day.now.founding.first calls.now) }
{
    let knock = Message {
        from: Terminal(0),
        to: Terminal(0),
        body: Body::Knock,
    };
    let mut replicas = rows(
        heap,
        Replica::new(day.founding.first, day.founding.founder),
        day.founding.terminals as usize,
    )?;
    let mut messages = rows(heap, knock, MESSAGES)?;
    let mut outcomes = rows(heap, Ok(Answer::Plain), calls.len())?;
    let played = play(
        book,
        day.founding,
        &mut replicas,
        &mut messages,
        calls,
        &mut outcomes,
    );
    played_text(heap, day.founding.terminals, calls, &outcomes, played)
}

// The report that lists what each call of a day came to.
struct Play;

impl Report for Play {
    ghost says = { played };

    fn text<C: CardKind, G: GroupKind, B: GroupTable<G> + Book + Drop>(
        heap: Global,
        _file: &[u8],
        book: B,
        day: Summary<C>,
        calls: &[Call<C>],
    ) -> Result<String, AllocError> {
        day_listing(heap, book, &day, calls)
    }
}

// The listing of a call file: one line that says what is wrong with it, or the day that it holds, played.
pub fn listing(heap: Global, file: &[u8]) -> Result<String, AllocError>
    ensures { IfOk result (λ t. IsListing file.now (string_bytes t)) }
{
    report_of::<Play>(heap, file)
}
