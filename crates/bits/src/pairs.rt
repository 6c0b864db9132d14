// Two 12-bit numbers written as three bytes into a room at any place, in either order of the bits. The room stays as found where
// the bytes don't lie wholly in it or a number is 4,096 or more.
ghost use Rattle.std.specs.Prelude.{◌≡◌};
ghost use Rattle.bits.specs.Numbers.{order_of};
ghost use Rattle.bits.specs.Pairs.{pair_put};

use crate::Order;
use crate::putting::put;

#[tactic(auto, using(crate::proofs::PairsPut::too_wide, crate::proofs::PairsPut::at_least, crate::proofs::PairsPut::at_most))]
pub fn put_pair(order: Order, room: &mut [u8], at: usize, x: u16, y: u16)
    ensures { room.new ≡ pair_put (order_of order) room.old at x y }
{
    if 4095 < x || 4095 < y {
        return;
    }
    let first = u64::from(x);
    let second = u64::from(y);
    match order {
        Order::Least => put(order, room, at, 3, second * 4096 + first),
        Order::Most => put(order, room, at, 3, first * 4096 + second),
    }
}
