// Numbers in bytes, for C; include/lpmag.h documents each function. Parameters are C's.
#![tactic(auto)]

ghost use Rattle.std.specs.Prelude.{◌≡◌};
ghost use Rattle.bits.specs.Numbers.{least, most, word_in, twelve_in};

use bits::Order;

#[unsafe(no_mangle)]
pub extern "C" fn lpmag_word16(bytes: &[u8], at: usize) -> u16
    ensures { result ≡ word_in bytes.now at 2 }
{
    bits::word16(bytes, at)
}

#[unsafe(no_mangle)]
pub extern "C" fn lpmag_word24(bytes: &[u8], at: usize) -> u32
    ensures { result ≡ word_in bytes.now at 3 }
{
    bits::word24(bytes, at)
}

#[unsafe(no_mangle)]
pub extern "C" fn lpmag_word32(bytes: &[u8], at: usize) -> u32
    ensures { result ≡ word_in bytes.now at 4 }
{
    bits::word32(bytes, at)
}

#[unsafe(no_mangle)]
pub extern "C" fn lpmag_twelve_least(bytes: &[u8], k: usize) -> u16
    ensures { result ≡ twelve_in least bytes.now k }
{
    bits::twelve(Order::Least, bytes, k)
}

#[unsafe(no_mangle)]
pub extern "C" fn lpmag_twelve_most(bytes: &[u8], k: usize) -> u16
    ensures { result ≡ twelve_in most bytes.now k }
{
    bits::twelve(Order::Most, bytes, k)
}
