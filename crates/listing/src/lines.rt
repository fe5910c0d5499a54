// The lines of a listing: each type prints as a line with its end, or as a part of one.
ghost use Rattle.std.specs.Prelude.{[], ◌∷◌, ◌++◌, length, Some};
ghost use Rattle.listing.specs.Lines.{fault_line, open_line, day_line, hex_text, stamp_text, outcome_text, call_line};
ghost use Rattle.listing.specs.Listings.{call_lines};
ghost use Rattle.listing.specs.Rewriting.{copy_line};

use callfile::{Fault, spell};
use cards::CardKind;
use house::calling::Answer;
use line::days::Outcome;
use parts::calls::Call;
use parts::stamps::Stamp;
use replica::refusals::Refusal;
use std::fmt;
use std::fmt::{Display, Formatter};

// No card is wider than this. (The length of an array cannot be a kind's own width, and a line is written without a heap.)
const WIDEST: usize = 255;

// A file that cannot be read.
#[derive(Clone, Copy)]
pub(crate) struct FaultLine(pub Fault);

impl Display for FaultLine {
    ghost output = { λ line. Some (fault_line line.0) };

    fn fmt<W: fmt::Write>(&self, f: &mut Formatter<W>) -> fmt::Result {
        let fault = self.0;
        writeln!(f, "file no {} at {}", u8::from(fault.cause), fault.byte)
    }
}

// A file that was written again, with the number of its bytes if they were the same.
#[derive(Clone, Copy)]
pub(crate) struct CopyLine(pub Option<usize>);

impl Display for CopyLine {
    ghost output = { λ line. Some (copy_line line.0) };

    fn fmt<W: fmt::Write>(&self, f: &mut Formatter<W>) -> fmt::Result {
        match self.0 {
            Some(bytes) => writeln!(f, "same {bytes}"),
            None => writeln!(f, "not the same"),
        }
    }
}

// A house that is not opened.
#[derive(Clone, Copy)]
pub(crate) struct OpenLine(pub Refusal);

impl Display for OpenLine {
    ghost output = { λ line. Some (open_line line.0) };

    fn fmt<W: fmt::Write>(&self, f: &mut Formatter<W>) -> fmt::Result {
        writeln!(f, "open no {}", u8::from(self.0))
    }
}

// A day that was played: a line with the numbers of its terminals and calls, and the lines of its calls.
#[derive(Clone, Copy)]
pub(crate) struct PlayedDay<'a, C> {
    pub terminals: u32,
    pub calls: &'a [Call<C>],
    pub outcomes: &'a [Outcome<C>],
}

impl<C: CardKind> Display for PlayedDay<'_, C> {
    ghost output = { λ day. Some (day_line day.terminals (length day.calls.now) ++ call_lines C.CardKind.shape 0 day.calls.now day.outcomes.now) };

    fn fmt<W: fmt::Write>(&self, f: &mut Formatter<W>) -> fmt::Result {
        writeln!(f, "day {} {}", self.terminals, self.calls.len())?;
        for (index, (call, outcome)) in self.calls.iter().zip(self.outcomes).enumerate() {
            let line = CallLine {
                index,
                call,
                outcome,
            };
            write!(f, "{line}")?;
        }
        Ok(())
    }
}

// The line of a call: its number, its letter, and what it came to.
#[derive(Clone, Copy)]
struct CallLine<'a, C> {
    index: usize,
    call: &'a Call<C>,
    outcome: &'a Outcome<C>,
}

impl<C: CardKind> Display for CallLine<'_, C> {
    ghost output = { λ line. Some (call_line C.CardKind.shape line.index line.call.now line.outcome.now) };

    fn fmt<W: fmt::Write>(&self, f: &mut Formatter<W>) -> fmt::Result {
        let (letter, _, _) = spell(self.call);
        writeln!(
            f,
            "{} {} {}",
            self.index,
            char::from(letter),
            OutcomeText(self.outcome)
        )
    }
}

// What a call came to.
#[derive(Clone, Copy)]
struct OutcomeText<'a, C>(&'a Outcome<C>);

impl<C: CardKind> Display for OutcomeText<'_, C> {
    ghost output = { λ text. Some (outcome_text C.CardKind.shape text.0.now) };

    fn fmt<W: fmt::Write>(&self, f: &mut Formatter<W>) -> fmt::Result {
        match self.0 {
            Err(cause) => write!(f, "no {}", u8::from(*cause)),
            Ok(Answer::Plain) => write!(f, "ok"),
            Ok(Answer::Settled(stamp)) => write!(f, "{}", StampText(*stamp)),
            Ok(Answer::Collected((card, stamp))) => {
                write!(f, "{} {}", StampText(*stamp), CardHex(card))
            }
        }
    }
}

// An accepted call that answers a stamp: the stamp's count and terminal.
#[derive(Clone, Copy)]
struct StampText(Stamp);

impl Display for StampText {
    ghost output = { λ text. Some (stamp_text text.0) };

    fn fmt<W: fmt::Write>(&self, f: &mut Formatter<W>) -> fmt::Result {
        write!(f, "ok {}.{}", self.0.count, self.0.terminal.0)
    }
}

// The bytes of a card in hexadecimal.
#[derive(Clone, Copy)]
struct CardHex<'a, C>(&'a C);

impl<C: CardKind> Display for CardHex<'_, C> {
    ghost output = { λ hex. Some (hex_text (C.CardKind.shape hex.0.now)) };

    fn fmt<W: fmt::Write>(&self, f: &mut Formatter<W>) -> fmt::Result {
        let mut buffer = [0u8; WIDEST];
        let bytes = &mut buffer[..C::WIDTH];
        self.0.write(bytes).unwrap();
        write!(f, "{}", Hex(bytes))
    }
}

// Two hexadecimal digits for each byte.
#[derive(Clone, Copy)]
struct Hex<'a>(&'a [u8]);

impl Display for Hex<'_> {
    ghost output = { λ hex. Some (hex_text hex.0.now) };

    fn fmt<W: fmt::Write>(&self, f: &mut Formatter<W>) -> fmt::Result {
        for byte in self.0 {
            write!(f, "{}", HexByte(*byte))?;
        }
        Ok(())
    }
}

// The two hexadecimal digits of a byte: a type of its own, since in the loop over the bytes the check does not know that each is below 256.
#[derive(Clone, Copy)]
struct HexByte(u8);

impl Display for HexByte {
    ghost output = { λ hex. Some (hex_text (hex.0 ∷ [])) };

    fn fmt<W: fmt::Write>(&self, f: &mut Formatter<W>) -> fmt::Result {
        let byte = self.0;
        write!(f, "{byte:02X}")
    }
}
