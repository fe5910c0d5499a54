// What a kind of card (a type of values) says of its bytes in a file.
ghost use Rattle.std.specs.Prelude.{◌≡◌, ℕ, ◌<◌, List, length, Some, Option};
ghost use Rattle.std.specs.List.{AllByRecursion};
ghost use Rattle.cards.specs.Written.{card_written};

// A place that is not exactly as long as what is to be written over it.
#[derive(Clone, Copy, Debug, PartialEq, Eq)]
pub struct WrongWidth;

pub trait CardKind: Copy {
    // The kind's number in a file.
    const KIND: u8;

    // The width of a card in bytes.
    const WIDTH: usize;

    // The same two for the contracts.
    ghost KIND: { ℕ };

    ghost WIDTH: { ℕ };

    // The bytes that a card is written as.
    ghost shape: { Self → List ℕ };

    // The card that bytes are read as, if they are a card.
    ghost parse: { List ℕ → Option Self };

    // The card that the bytes stand for.
    fn read(bytes: &[u8]) -> Option<Self>
        ensures { result ≡ parse bytes.now };

    // Writes the card over the whole of `out`, if it is as long as a card is wide.
    fn write(&self, out: &mut [u8]) -> Result<(), WrongWidth>
        ensures { (result, out.new) ≡ card_written WIDTH shape self.now out.old };

    // Every card is as wide as its kind.
    ghost wide: { (c : Self) → length (shape c) ≡ WIDTH };

    // A width fits in one byte.
    ghost narrow: { WIDTH < 256 };

    // What was written is read as the same card.
    ghost round: { (c : Self) → parse (shape c) ≡ Some c };

    // What was read is written as the same bytes.
    ghost back: { (xs : List ℕ) (c : Self) → AllByRecursion (λ x. x < 256) xs → parse xs ≡ Some c → shape c ≡ xs };
}
