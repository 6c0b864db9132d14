// Words of 2, 3, 4 and 8 bytes written into a room at any place, most significant byte first. The room stays as found where a word
// doesn't lie wholly in it.
ghost use Rattle.std.specs.Prelude.{◌≡◌, ◌*◌, ◌/◌, ◌%◌, ◌^◌, ◌<◌, ◌≤◌};
ghost use Rattle.buffers.specs.Laying.{laid};
ghost use Rattle.bits.specs.Numbers.{order_of};
ghost use Rattle.bits.specs.Putting.{rank_of, bytes_of, word_put};

use crate::Order;

// How many of n bytes weigh less than byte k.
fn rank(order: Order, n: usize, k: usize) -> usize
    requires { k < n }
    ensures { result ≡ rank_of (order_of order) n k }
{
    match order {
        Order::Least => k,
        Order::Most => n - 1 - k,
    }
}

// The byte of x above `rank` others.
fn byte(x: u64, rank: usize) -> u8
    requires { rank < 8 }
    ensures { result ≡ x / 2 ^ (8 * rank) % 256 }
{
    ((x >> (8 * rank)) % 256) as u8
}

// The n bytes of x from `at` on, where they lie wholly in the room. All that is written goes through this loop. By k and not over
// `room[at..at + n].iter_mut().enumerate()`: the byte goes by k either way, and the part would be named beside it.
pub(crate) fn put(order: Order, room: &mut [u8], at: usize, n: usize, x: u64)
    requires { n ≤ 8 }
    ensures { room.new ≡ laid (bytes_of (order_of order) n x) room.old at }
{
    if !buffers::has_room(room.len(), at, n) {
        return;
    }
    for k in 0..n {
        room[at + k] = byte(x, rank(order, n, k));
    }
}

// A word of each size has a function, as in words.rt.
#[tactic(auto, using(crate::proofs::WordsPut::narrow))]
pub fn put16(room: &mut [u8], at: usize, x: u16)
    ensures { room.new ≡ word_put room.old at 2 x }
{
    put(Order::Most, room, at, 2, u64::from(x));
}

// Numbers of more than 24 bits aren't written.
#[tactic(auto, using(crate::proofs::WordsPut::narrow, crate::proofs::WordsPut::wide))]
pub fn put24(room: &mut [u8], at: usize, x: u32)
    ensures { room.new ≡ word_put room.old at 3 x }
{
    if x < 0x100_0000 {
        put(Order::Most, room, at, 3, u64::from(x));
    }
}

#[tactic(auto, using(crate::proofs::WordsPut::narrow))]
pub fn put32(room: &mut [u8], at: usize, x: u32)
    ensures { room.new ≡ word_put room.old at 4 x }
{
    put(Order::Most, room, at, 4, u64::from(x));
}

#[tactic(auto, using(crate::proofs::WordsPut::narrow))]
pub fn put64(room: &mut [u8], at: usize, x: u64)
    ensures { room.new ≡ word_put room.old at 8 x }
{
    put(Order::Most, room, at, 8, x);
}
