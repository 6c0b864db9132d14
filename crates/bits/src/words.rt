// Words of 2, 3, 4 and 8 bytes at any place, most significant byte first (01, "The record").
ghost use Rattle.std.specs.Prelude.{◌≡◌, ◌≤◌};
ghost use Rattle.bits.specs.Numbers.{word_in};

// The word of n bytes from `at`; 0 where it doesn't lie wholly in b.
fn word(b: &[u8], at: usize, n: usize) -> u64
    requires { n ≤ 8 }
    ensures { result ≡ word_in b.now at n }
{
    if !buffers::has_room(b.len(), at, n) {
        return 0;
    }
    let mut x = 0;
    for y in &b[at..at + n] {
        x = x * 256 + u64::from(*y);
    }
    x
}

// A function each, not one over a trait: three impls, each a size, a conversion and its law, would stand for these lines, and 24 bits have no type.
pub fn word16(b: &[u8], at: usize) -> u16
    ensures { result ≡ word_in b.now at 2 }
{
    word(b, at, 2) as u16
}

pub fn word24(b: &[u8], at: usize) -> u32
    ensures { result ≡ word_in b.now at 3 }
{
    word(b, at, 3) as u32
}

pub fn word32(b: &[u8], at: usize) -> u32
    ensures { result ≡ word_in b.now at 4 }
{
    word(b, at, 4) as u32
}

pub fn word64(b: &[u8], at: usize) -> u64
    ensures { result ≡ word_in b.now at 8 }
{
    word(b, at, 8)
}
