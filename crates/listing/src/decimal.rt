// Numbers as decimal digits.
ghost use Rattle.std.specs.Prelude.{◌+◌, ◌≤◌, ◌∷◌, ◌≡◌, length};
ghost use Rattle.listing.specs.Text.{space};
ghost use Rattle.listing.specs.Inner.Putting.{Puts, Spelled};
ghost use Rattle.listing.specs.Decimal.{digits, decimal};

use crate::text::Page;

// The most digits of a u64.
const DIGITS: usize = 20;

// Fills `places` from the last on; answers where the digits begin. By places: the answer is a place, which `iter_mut().enumerate().rev()` would
// count just so.
fn spell(n: u64, places: &mut [u8]) -> usize
    requires { length places.old ≡ digits }
    ensures { Spelled n places.new result }
{
    let mut rest = n;
    for i in (0..DIGITS).rev() {
        places[i] = 48 + (rest % 10) as u8;
        rest /= 10;
        if rest == 0 {
            return i;
        }
    }
    0
}

impl<'a> Page<'a> {
    fn decimal(&mut self, n: u64)
        requires { self.old.made + digits ≤ length self.old.bytes.now }
        ensures { Puts self.old (decimal n) self.new }
    {
        let mut places = [0; DIGITS];
        let from = spell(n, &mut places);
        self.text(&places[from..]);
    }

    // A space and the number.
    pub(crate) fn number(&mut self, n: u64)
        requires { self.old.made + (1 + digits) ≤ length self.old.bytes.now }
        ensures { Puts self.old (space ∷ decimal n) self.new }
    {
        self.text(b" ");
        self.decimal(n);
    }
}
