// The sour card: a sour rests, is fed, or is out.
ghost use Rattle.std.specs.Prelude.{◌≡◌, [], ◌∷◌, length, drop, slice_index};
ghost use Rattle.cards.specs.Sours.{sour_kind, sour_width, sour_bytes, sour_from, sour_of};
ghost use Rattle.std.proofs.Common.{arith, rules};
ghost use Rattle.std.proofs.lemmas.List.{drop_more};
ghost use Rattle.std.proofs.lemmas.Bool.Decides.{nat_tests};
ghost use Rattle.cards.specs.Words.{words_bytes};
ghost use Rattle.cards.specs.Back;
ghost use Rattle.cards.specs.Back.{words_back};

use crate::kind::{CardKind, WrongWidth};
use crate::words::word_at;

#[derive(Clone, Copy)]
pub enum SourCard {
    // Hours resting.
    Resting(u16),
    // Grams fed.
    Fed(u16),
    Out,
}

impl SourCard {
    // A step of `read` alone, so no `TryFrom`, which would be public and need an error of its own.
    fn from_parts(letter: u8, number: u16) -> Option<SourCard>
        ensures { result ≡ sour_from letter number }
    {
        match (char::from(letter), number) {
            ('R', hours) => Some(SourCard::Resting(hours)),
            ('F', grams) => Some(SourCard::Fed(grams)),
            ('O', 0) => Some(SourCard::Out),
            _ => None,
        }
    }

    fn parts(&self) -> (u8, u16)
        ensures { result.0 ∷ words_bytes (result.1 ∷ []) ≡ sour_bytes self.now }
    {
        match self {
            SourCard::Resting(hours) => (b'R', *hours),
            SourCard::Fed(grams) => (b'F', *grams),
            SourCard::Out => (b'O', 0),
        }
    }
}

impl CardKind for SourCard {
    const KIND: u8 = 2;

    // A letter and a number of two bytes.
    const WIDTH: usize = 3;

    ghost KIND = { sour_kind };

    ghost WIDTH = { sour_width };

    ghost shape = { sour_bytes };

    ghost parse = { sour_of };

    ghost wide = { Prim.search rules };

    ghost narrow = { Prim.search rules };

    ghost round = { Prim.search rules };

    ghost back = { λ xs s h e.
        let w : length xs ≡ 3 → words_bytes (Back.words 1 1 xs) ≡ drop 1 xs = λ l. words_back 1 1 xs h l in
        let f : length xs ≡ 3 → xs ≡ slice_index xs 0 ∷ drop 1 xs = λ l. drop_more xs 0 0 (omega arith) in
        Prim.grind (arith, nat_tests) };

    fn read(bytes: &[u8]) -> Option<SourCard> {
        if bytes.len() != Self::WIDTH {
            return None;
        }
        SourCard::from_parts(bytes[0], word_at(bytes, 1))
    }

    #[tactic(auto, using(crate::proofs::Puts::two_bytes))]
    fn write(&self, out: &mut [u8]) -> Result<(), WrongWidth> {
        if out.len() != Self::WIDTH {
            return Err(WrongWidth);
        }
        let (letter, number) = self.parts();
        let [low, high] = number.to_le_bytes();
        out.copy_from_slice(&[letter, low, high]);
        Ok(())
    }
}
