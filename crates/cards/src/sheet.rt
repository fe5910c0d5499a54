// The sheet: a dough's ingredients in parts per 10,000 of flour.
ghost use Rattle.std.specs.Prelude.{◌≡◌, ℕ, ◌&&◌, ◌∷◌, length, ◌==◌};
ghost use Rattle.std.proofs.Common.{sym, ap, ◌∙◌, arith, rules};
ghost use Rattle.cards.specs.Sheets.{sheet_kind, sheet_width, sheet_bytes, sheet_of, flour};
ghost use Rattle.std.proofs.Math.Bool;
ghost use Rattle.std.proofs.lemmas.Bool.Decides.{nat_tests};
ghost use Rattle.cards.specs.Words.{words_bytes, word_at};
ghost use Rattle.cards.specs.Back;
ghost use Rattle.cards.specs.Back.{words_back};
ghost use Rattle.std.proofs.lemmas.Option.{cond_some};

use crate::kind::{CardKind, WrongWidth};
use crate::words::{put_words, word_at};

// The parts of flour in every sheet.
pub const FLOUR: u16 = 10_000;

// Flour is always `FLOUR`, so a sheet holds the other six.
#[derive(Clone, Copy)]
pub struct Sheet {
    pub water: u16,
    pub salt: u16,
    pub leaven: u16,
    pub fat: u16,
    pub sugar: u16,
    pub other: u16,
}

impl CardKind for Sheet {
    const KIND: u8 = 1;

    // Seven numbers of two bytes.
    const WIDTH: usize = 14;

    ghost KIND = { sheet_kind };

    ghost WIDTH = { sheet_width };

    ghost shape = { sheet_bytes };

    ghost parse = { sheet_of };

    ghost wide = { Prim.search rules };

    ghost narrow = { Prim.search rules };

    ghost round = { Prim.search rules };

    ghost back = { λ xs s h e.
        let both = cond_some (length xs == sheet_width && word_at xs 0 == flour) _ s e in
        let test : (length xs == sheet_width && word_at xs 0 == flour) ≡ Bool.true = both.0 in
        let long : length xs ≡ sheet_width = Prim.grind (arith, nat_tests) in
        let first : flour ≡ word_at xs 0 = Prim.grind (arith, nat_tests) in
        ap sheet_bytes (sym both.1) ∙ (ap (λ (n : ℕ). words_bytes (n ∷ Back.words 6 2 xs)) first ∙ words_back 7 0 xs h long) };

    fn read(bytes: &[u8]) -> Option<Sheet> {
        if bytes.len() != Self::WIDTH || word_at(bytes, 0) != FLOUR {
            return None;
        }
        Some(Sheet {
            water: word_at(bytes, 2),
            salt: word_at(bytes, 4),
            leaven: word_at(bytes, 6),
            fat: word_at(bytes, 8),
            sugar: word_at(bytes, 10),
            other: word_at(bytes, 12),
        })
    }

    fn write(&self, out: &mut [u8]) -> Result<(), WrongWidth> {
        let words = [
            FLOUR,
            self.water,
            self.salt,
            self.leaven,
            self.fat,
            self.sugar,
            self.other,
        ];
        put_words(out, &words)
    }
}
