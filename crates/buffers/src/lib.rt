// Buffers: one copied into another of its size, one laid into another from a place on where it has room, one cleared; and what is
// to be done to an open buffer and the finished one beside it.
#![tactic(auto)]

mod work;

ghost use Rattle.std.specs.Prelude.{◌≡◌, ◌+◌, ◌≤◌, length, take, drop};
ghost use Rattle.buffers.specs.Copying.{copied};
ghost use Rattle.buffers.specs.Laying.{patch, has_room, laid};
ghost use Rattle.buffers.specs.Clearing.{cleared};

pub use work::{Work, closing_work, no_work};

// Do n places from `at` on lie among so many? Three numbers: asked for every size and place.
pub fn has_room(size: usize, at: usize, n: usize) -> bool
    ensures { result ≡ has_room size at n }
{
    at <= size && n <= size - at
}

// What is laid goes in blocks. A block is read whole before it is put: so it is one load and one store, though two slices could overlap
// for all that the compiler knows.
// Not `copy_from_slice`: it asks for memmove, which include/lpmag.h doesn't name, and a frame takes 18 ns, not 11. Not `as_chunks`: it bounds T's size.
const BLOCK: usize = 16;

fn read_block<T: Copy>(from: &[T], at: usize) -> [T; BLOCK]
    requires { at + 16 ≤ length from.now }
    ensures { result ≡ take 16 (drop at from.now) }
{
    let mut block = [from[at]; BLOCK];
    for k in 0..BLOCK {
        block[k] = from[at + k];
    }
    block
}

fn put_block<T: Copy>(block: [T; BLOCK], to: &mut [T], at: usize)
    requires { at + 16 ≤ length to.old }
    ensures { to.new ≡ patch to.old at block }
{
    for (k, x) in block.iter().enumerate() {
        to[at + k] = *x;
    }
}

// The elements of `to` from place `at` on become `from` where it lies wholly inside; else `to` stays as found. A place beside the room and no
// part of it: it answers for every place (`laid`).
pub fn lay<T: Copy>(from: &[T], to: &mut [T], at: usize)
    ensures { to.new ≡ laid from.now to.old at }
{
    if !has_room(to.len(), at, from.len()) {
        return;
    }
    let blocks = from.len() / BLOCK;
    for i in 0..blocks {
        put_block(read_block(from, BLOCK * i), to, at + BLOCK * i);
    }
    for i in BLOCK * blocks..from.len() {
        to[at + i] = from[i];
    }
}

// `to` becomes `from` where both are of one size; else it stays as found.
#[tactic(auto, using(crate::proofs::Patches::laid_whole))]
pub fn copy<T: Copy>(from: &[T], to: &mut [T])
    ensures { to.new ≡ copied from.now to.old }
{
    if from.len() == to.len() {
        lay(from, to, 0);
    }
}

// Every element becomes `zero`.
#[tactic(auto, using(crate::proofs::Fills::fill_more))]
pub fn clear<T: Copy>(buffer: &mut [T], zero: T)
    ensures { buffer.new ≡ cleared zero buffer.old }
{
    for x in buffer {
        *x = zero;
    }
}
