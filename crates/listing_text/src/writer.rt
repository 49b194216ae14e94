// Text memory that is written piece by piece.
#![tactic(auto)]

ghost use Rattle.std.specs.Prelude.{◌≡◌, [], ◌∷◌, ◌+◌, ◌<◌};
ghost use Rattle.listing_text.specs.Meaning.Listing.{decimal};
ghost use Rattle.listing_text.specs.Model.Puts.{Fits, Puts};

// Text memory, and the place in it up to which text stands.
#[derive(Drop)]
pub struct Writer<'a> {
    pub text: &'a mut [u8],
    pub at: usize,
}

// The code of a digit.
// No `char::from_digit`: it answers an Option of a char, of which this would be the byte.
fn digit(n: usize) -> u8
    requires { n < 10 }
    ensures { result ≡ 48 + n }
{
    b'0' + n as u8
}

impl<'a> Writer<'a> {
    // At the start of a text memory.
    pub fn new(text: &'a mut [u8]) -> Writer<'a>
        ensures at { result.at ≡ 0 }
        ensures text { result.text.now ≡ text.old }
        ensures same_reference { result.text.ghost_name ≡ text.entry.ghost_name }
    {
        Writer { text, at: 0 }
    }

    // One byte.
    pub fn put_byte(&mut self, byte: u8)
        requires { Fits self.old (byte ∷ []) }
        ensures { Puts self.old (byte ∷ []) self.new }
    {
        self.text[self.at] = byte;
        self.at += 1;
    }

    // A number in decimal.
    // Digit by digit and not by Display: the promise is over the bytes of `decimal`, and there is no heap for a formatted text.
    pub fn put_number(&mut self, n: usize)
        requires { (n < 1000) × Fits self.old (decimal n) }
        ensures { Puts self.old (decimal n) self.new }
    {
        if n < 10 {
            self.put_byte(digit(n));
            return;
        }
        if n < 100 {
            self.put_byte(digit(n / 10));
            self.put_byte(digit(n % 10));
            return;
        }
        self.put_byte(digit(n / 100));
        self.put_byte(digit(n / 10 % 10));
        self.put_byte(digit(n % 10));
    }

    // A word as it stands.
    pub fn put_word(&mut self, word: &[u8])
        requires { Fits self.old word.now }
        ensures { Puts self.old word.now self.new }
    {
        let end = self.at + word.len();
        self.text[self.at..end].copy_from_slice(word);
        self.at = end;
    }
}
