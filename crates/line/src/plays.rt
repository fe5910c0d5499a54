// Playing a day.
ghost use Rattle.std.specs.Prelude.{◌≡◌, ◌≤◌, ◌++◌, length, drop};
ghost use Rattle.house.specs.States.{state};
ghost use Rattle.history.specs.Offers.{Lawful};
ghost use Rattle.line.specs.Runs.{outcomes_of, state_after, play_day, played_state};

use crate::days::{NotPlayed, Outcome};
use books::book::Book;
use house::house::House;
use parts::calls::Call;
use parts::foundings::Founding;
use parts::tables::put;
use replica::messages::Message;
use replica::replicas::Replica;

// Makes the calls one after the other and notes what each came to, in a list of its own beside that of the calls, since no memory is taken here.
fn play_calls<B: Book, C: Copy>(
    house: &mut House<B>,
    replicas: &mut [Replica<C>],
    messages: &mut [Message<C>],
    calls: &[Call<C>],
    outcomes: &mut [Outcome<C>],
)
    requires { length calls.now ≤ length outcomes.old }
    ensures noted { outcomes.new ≡ outcomes_of B.size B.members_of B.reads B.writes (state house.old replicas.old messages.old) calls.now ++ drop (length calls.now) outcomes.old }
    ensures left { state house.new replicas.new messages.new ≡ state_after B.size B.members_of B.reads B.writes (state house.old replicas.old messages.old) calls.now }
{
    // By index: the check does not know a slice's elements after `iter_mut().zip(..)`.
    for (i, call) in calls.iter().enumerate() {
        put(outcomes, i, house.call(replicas, messages, *call));
    }
}

// Opens a house over the book and the caller's tables, plays the calls on it, and notes what each came to in the
// front of the caller's list of outcomes.
// The law of the line (atomicity) holds of a house that is opened so: whatever calls are offered to it, not only these.
pub fn play<B: Book, C: Copy>(
    book: B,
    founding: Founding<C>,
    replicas: &mut [Replica<C>],
    messages: &mut [Message<C>],
    calls: &[Call<C>],
    outcomes: &mut [Outcome<C>],
) -> Result<House<B>, NotPlayed<B>>
    ensures plays { (played_state result replicas.new messages.new, outcomes.new, replicas.new, messages.new) ≡ play_day B.size B.members_of B.reads B.writes book founding.terminals founding.founder founding.first replicas.old messages.old calls.now outcomes.old }
    ensures law { Lawful B.size B.members_of B.reads B.writes book founding.terminals founding.founder founding.first replicas.old messages.old }
{
    if outcomes.len() < calls.len() {
        return Err(NotPlayed::NoRoom(book));
    }
    let mut house = House::open(book, founding, replicas, messages)?;
    play_calls(&mut house, replicas, messages, calls, outcomes);
    Ok(house)
}
