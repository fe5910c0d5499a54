// The call at the front of bytes: its letter, its two bytes, and the card that a write carries behind them.
ghost use Rattle.std.specs.Prelude.{◌≡◌, true};
ghost use Rattle.callfile.specs.Letters.{split_of, short_of, spelling_of, narrow, size_of};
ghost use Rattle.callfile.specs.Seen.{seen};
ghost use Rattle.callfile.specs.Writing.{front_of};

use crate::limits::{CALL, LARGEST};
use cards::CardKind;
use parts::calls::Call;
use parts::counts::{Group, Place, Terminal};

// A call as the file has it; the card of a long one is a part of the file.
#[derive(Drop)]
pub enum SplitCall<'a> {
    Short {
        letter: u8,
        first: u8,
        second: u8,
    },
    Long {
        letter: u8,
        first: u8,
        second: u8,
        card: &'a [u8],
    },
}

// The call at the front, where a card takes `width` bytes; nothing where it is cut off.
pub fn split<'a>(bytes: &'a [u8], width: usize) -> Option<SplitCall<'a>>
    ensures { seen result ≡ split_of width bytes.now }
{
    let [letter, first, second, rest @ ..] = bytes else {
        return None;
    };
    let (letter, first, second) = (*letter, *first, *second);
    match char::from(letter) {
        'W' => {
            let card = rest.get(..width)?;
            Some(SplitCall::Long {
                letter,
                first,
                second,
                card,
            })
        }
        _ => Some(SplitCall::Short {
            letter,
            first,
            second,
        }),
    }
}

// The call without a card that a letter and two bytes spell, if they do. A byte that a call does not use is 0.
pub fn short_call<C: Copy>(letter: u8, first: u8, second: u8) -> Option<Call<C>>
    ensures { result ≡ short_of letter first second }
{
    let number = u32::from(first);
    let one = Terminal(number);
    let other = Terminal(u32::from(second));
    let place = Place(u32::from(second));
    match (char::from(letter), second) {
        ('E', 0) => Some(Call::Enter(one)),
        ('K', _) => Some(Call::Knock(one, other)),
        ('S', _) => Some(Call::Send(one, other)),
        ('D', 0) => Some(Call::Deliver(number)),
        ('L', 0) => Some(Call::Lose(number)),
        ('X', 0) => Some(Call::Crash(one)),
        ('R', 0) => Some(Call::Read(one)),
        ('Q', 0) => Some(Call::Settle(one)),
        ('P', 0) => Some(Call::Confirm(one)),
        ('A', 0) => Some(Call::Collect(one)),
        ('N', 0) => Some(Call::Appoint(Group(number))),
        ('T', _) => Some(Call::Tell(one, place)),
        ('G', _) => Some(Call::Retire(one, place)),
        ('H', 0) => Some(Call::RetireSettle(one)),
        ('J', 0) => Some(Call::RetireConfirm(one)),
        ('Z', 0) => Some(Call::RetireClose(one)),
        _ => None,
    }
}

// The letter and the two numbers of a call.
pub fn spell<C: Copy>(call: &Call<C>) -> (u8, u32, u32)
    ensures { result ≡ spelling_of call.now }
{
    match call {
        Call::Enter(i) => (b'E', i.0, 0),
        Call::Knock(i, j) => (b'K', i.0, j.0),
        Call::Send(i, j) => (b'S', i.0, j.0),
        Call::Deliver(p) => (b'D', *p, 0),
        Call::Lose(p) => (b'L', *p, 0),
        Call::Crash(i) => (b'X', i.0, 0),
        Call::Read(i) => (b'R', i.0, 0),
        Call::Write(i, _) => (b'W', i.0, 0),
        Call::Settle(i) => (b'Q', i.0, 0),
        Call::Confirm(i) => (b'P', i.0, 0),
        Call::Collect(i) => (b'A', i.0, 0),
        Call::Appoint(group) => (b'N', group.0, 0),
        Call::Tell(i, k) => (b'T', i.0, k.0),
        Call::Retire(i, k) => (b'G', i.0, k.0),
        Call::RetireSettle(i) => (b'H', i.0, 0),
        Call::RetireConfirm(i) => (b'J', i.0, 0),
        Call::RetireClose(i) => (b'Z', i.0, 0),
    }
}

// Whether the numbers of a call fit a byte each.
pub(crate) fn is_narrow<C: Copy>(call: &Call<C>) -> bool
    ensures { result ≡ narrow call.now }
{
    let (_, first, second) = spell(call);
    first <= LARGEST && second <= LARGEST
}

// The letter and the two numbers as bytes.
pub(crate) fn front<C: Copy>(call: &Call<C>) -> [u8; CALL]
    requires { narrow call.now ≡ true }
    ensures { result ≡ front_of call.now }
{
    let (letter, first, second) = spell(call);
    // Both fit, as the clause says; `try_from` would have to be unwrapped.
    [letter, first as u8, second as u8]
}

// How many bytes a call takes.
pub(crate) fn size_of_call<C: CardKind>(call: &Call<C>) -> usize
    ensures { result ≡ size_of C.CardKind.WIDTH call.now }
{
    match call {
        Call::Write(_, _) => CALL + C::WIDTH,
        _ => CALL,
    }
}
