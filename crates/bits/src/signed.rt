// Signed 16-bit numbers at any place: two's complement, most significant byte first.
ghost use Rattle.std.specs.Prelude.{◌≡◌};
ghost use Rattle.bits.specs.Signed.{signed_of, unsigned_of, signed_in, signed_put};

use crate::{put16, word16};

// std's casts by name: the contracts say what they are (`signed_of`, `unsigned_of`).
fn from_word(w: u16) -> i16
    ensures { result ≡ signed_of w }
{
    w.cast_signed()
}

fn to_word(z: i16) -> u16
    ensures { result ≡ unsigned_of z }
{
    z.cast_unsigned()
}

// 0 where the number doesn't lie wholly in b.
pub fn signed16(b: &[u8], at: usize) -> i16
    ensures { result ≡ signed_in b.now at }
{
    from_word(word16(b, at))
}

// The room stays as found where the number doesn't lie wholly in it.
#[tactic(auto, using(crate::proofs::SignedPut::narrow))]
pub fn put_signed16(room: &mut [u8], at: usize, z: i16)
    ensures { room.new ≡ signed_put room.old at z }
{
    put16(room, at, to_word(z));
}
