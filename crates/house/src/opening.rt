// The opening of a house.
ghost use Rattle.std.specs.Prelude.{◌≡◌};
ghost use Rattle.house.specs.Opening.{why_not_open, open_step, opened_state};

use crate::house::House;
use crate::tables::put_all;
use books::book::Book;
use parts::counts::{Group, MESSAGES, PLACES, TERMINALS, Terminal};
use parts::foundings::Founding;
use parts::sets::TerminalSet;
use replica::messages::Message;
use replica::refusals::Refusal;
use replica::replicas::Replica;

// The first cause for which a house with these tables is not opened.
// It answers an `Option` and no `Result`: `?` could not pass the cause on, since the book goes back beside it.
fn why_not_open(
    members: TerminalSet,
    size: u32,
    founder: Terminal,
    rows: usize,
    messages: usize,
) -> Option<Refusal>
    ensures { result ≡ why_not_open members size founder rows messages }
{
    if size == 0 || size > TERMINALS as u32 || rows != size as usize || messages != MESSAGES {
        return Some(Refusal::WrongTables);
    }
    if founder.0 >= size {
        return Some(Refusal::NoFounder);
    }
    if members != TerminalSet::new().with(founder) {
        return Some(Refusal::NotFounderAlone);
    }
    None
}

impl<B: Book> House<B> {
    // Opens a house over the book and writes its terminals into the caller's table; a declined opening hands the book back.
    pub fn open<C: Copy>(
        book: B,
        founding: Founding<C>,
        replicas: &mut [Replica<C>],
        messages: &[Message<C>],
    ) -> Result<House<B>, (Refusal, B)>
        ensures { (opened_state result replicas.new messages.now, replicas.new) ≡ open_step B.members_of book founding.terminals founding.founder founding.first replicas.old messages.now }
    {
        let Founding {
            terminals,
            founder,
            first,
        } = founding;
        let members = book.members(Group(0));
        let (rows, pool) = (replicas.len(), messages.len());
        if let Some(cause) = why_not_open(members, terminals, founder, rows, pool) {
            return Err((cause, book));
        }
        put_all(replicas, Replica::new(first, founder));
        Ok(House {
            book,
            size: terminals,
            founder,
            waiting: 0,
            listed: [Group(0); PLACES],
            places: 1,
        })
    }
}
