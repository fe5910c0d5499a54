// The calls of a file.
ghost use Rattle.std.specs.Prelude.{◌≡◌, ◌+◌, ◌≤◌, length, drop, Some, Ok, IfOk};
ghost use Rattle.callfile.specs.Limits.{longest};
ghost use Rattle.callfile.specs.Faults.{ok_unless, fault_in};
ghost use Rattle.callfile.specs.Letters.{size_of};
ghost use Rattle.callfile.specs.Reading.{call_at, calls_of};

use crate::faults::{Fault, Part};
use crate::letters::{SplitCall, short_call, size_of_call, split};
use crate::limits::CALL;
use books::causes::Cause;
use cards::CardKind;
use parts::calls::Call;
use parts::counts::Terminal;

// What is left of a file's calls, and the byte where it begins.
#[derive(Drop)]
pub(crate) struct Calls<'a> {
    rest: &'a [u8],
    byte: usize,
    ghost inside: { byte + length rest.now ≤ longest },
}

impl<'a> Calls<'a> {
    // The calls that stand in the file from `byte` on.
    pub(crate) fn new(file: &'a [u8], byte: usize) -> Calls<'a>
        requires { (byte ≤ length file.now) × (length file.now ≤ longest) }
        ensures rest { result.rest.now ≡ drop byte file.now }
        ensures byte { result.byte ≡ byte }
    {
        Calls {
            rest: &file[byte..],
            byte,
        }
    }

    // The call at the front.
    fn front_call<C: CardKind>(&self) -> Result<Call<C>, Fault>
        ensures { result ≡ call_at C.CardKind.WIDTH C.CardKind.parse self.now.byte self.now.rest.now }
    {
        let wrong = Fault::new(Cause::BadCall, Part::Call, self.byte);
        match split(self.rest, C::WIDTH) {
            Some(
                SplitCall::Short {
                    letter,
                    first,
                    second,
                },
            ) => short_call(letter, first, second).ok_or(wrong),
            Some(
                SplitCall::Long {
                    first,
                    second: 0,
                    card,
                    ..
                },
            ) => {
                let wrong_card = Fault::new(Cause::BadCard, Part::Card, self.byte + CALL);
                let card = C::read(card).ok_or(wrong_card)?;
                Ok(Call::Write(Terminal(u32::from(first)), card))
            }
            _ => Err(wrong),
        }
    }

    // Takes the next call off.
    pub(crate) fn next_call<C: CardKind>(&mut self) -> Result<Call<C>, Fault>
        ensures call { result ≡ call_at C.CardKind.WIDTH C.CardKind.parse self.old.byte self.old.rest.now }
        ensures behind { IfOk result (λ c. (self.new.rest.now ≡ drop (size_of C.CardKind.WIDTH c) self.old.rest.now) × (self.new.byte ≡ self.old.byte + size_of C.CardKind.WIDTH c)) }
    {
        let call = self.front_call()?;
        let size = size_of_call(&call);
        self.rest = &self.rest[size..];
        self.byte += size;
        Ok(call)
    }
}

// The first call that is wrong, or the first byte left over.
#[tactic(auto, using(crate::proofs::CallWalks::calls_again, crate::proofs::CallWalks::calls_wrong))]
pub(crate) fn check_calls<C: CardKind>(mut calls: Calls, count: usize) -> Result<(), Fault>
    ensures { result ≡ ok_unless (fault_in (calls_of C.CardKind.WIDTH C.CardKind.parse calls.entry.byte count calls.entry.rest.now)) }
{
    for _ in 0..count {
        calls.next_call::<C>()?;
    }
    if !calls.rest.is_empty() {
        return Err(Fault::new(Cause::BadCall, Part::Rest, calls.byte));
    }
    Ok(())
}
