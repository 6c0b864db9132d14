// 12-bit numbers at any place, two in three bytes, in either order of the bits.
ghost use Rattle.std.specs.Prelude.{◌≡◌, ◌+◌, ◌*◌, ◌/◌, ◌%◌, ◌<◌, leb, cond};
ghost use Rattle.bits.specs.Numbers.{order_of, twelve_in};
ghost use Rattle.bits.specs.Inner.Parts.{PartsOf};

use crate::Order;

// Whether the number at place k lies wholly in n bytes. It multiplies nothing, since k may be any number.
fn inside(n: usize, k: usize) -> bool
    ensures { result ≡ leb (12 * k + 12) (8 * n) }
{
    if k / 2 == n / 3 {
        k % 2 == 0 && n % 3 == 2
    } else {
        k / 2 < n / 3
    }
}

// The two bytes of a number: the one that it has for itself, and the one that it shares with its neighbour.
#[derive(Clone, Copy, Debug, PartialEq, Eq)]
struct Parts {
    whole: u32,
    shared: u32,
}

// The bytes of the number at place k; both 0 where it doesn't lie wholly in b.
fn bytes_of(b: &[u8], k: usize) -> Parts
    ensures { PartsOf b.now k result.whole result.shared }
{
    if !inside(b.len(), k) {
        return Parts {
            whole: 0,
            shared: 0,
        };
    }
    let at = k / 2 * 3;
    Parts {
        whole: u32::from(b[at + k % 2 * 2]),
        shared: u32::from(b[at + 1]),
    }
}

// `above` is a flag: order and parity of the place say it together, and no type of either does.
// The number from its bytes: the half of the shared byte stands above the other byte, or below it. Which goes by the order and the place.
fn joined(p: Parts, above: bool) -> u16
    requires { (p.whole < 256) × (p.shared < 256) }
    ensures { result ≡ cond above (p.shared % 16 * 256 + p.whole) (p.whole * 16 + p.shared / 16) }
{
    if above {
        (p.shared % 16 * 256 + p.whole) as u16
    } else {
        (p.whole * 16 + p.shared / 16) as u16
    }
}

// Least significant bit first: Lunar Prospector's MAG samples (000, section 2.2). Most significant bit first: ACE's minor frames (003).
#[tactic(auto, using(crate::proofs::TwelveBits::at_least, crate::proofs::TwelveBits::at_most))]
pub fn twelve(order: Order, b: &[u8], k: usize) -> u16
    ensures { result ≡ twelve_in (order_of order) b.now k }
{
    let parts = bytes_of(b, k);
    match order {
        Order::Least => joined(parts, k % 2 == 0),
        Order::Most => joined(parts, k % 2 == 1),
    }
}
