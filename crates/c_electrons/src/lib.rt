// The electrons of an accumulation, for C; include/lpmag.h documents each function. Parameters are C's.
#![tactic(auto)]

ghost use Rattle.std.specs.Prelude.{◌≡◌};
ghost use Rattle.electrons.specs.Questions.{total_cell, rate_cell, sample_asked, three_asked, header_asked};
ghost use Rattle.c_answers.specs.Answers.{AskedGiven};
ghost use Rattle.c_electrons.specs.Electrons.{LaidGiven, CellGiven, bin_samples};

use c_answers::{NO_SUCH_BIN, NO_SUCH_PLACE, hand, hand_count};
use cells::{Accumulated, NoSuchPlace};

#[unsafe(no_mangle)]
pub extern "C" fn lpmag_lay_electrons(code: u8, science: &[u8], cells: &mut [u8]) -> u8
    ensures { LaidGiven code science.now cells.old result cells.new }
{
    match cells::lay(code, science, cells) {
        Ok(()) => 0,
        Err(NoSuchPlace) => NO_SUCH_PLACE,
    }
}

#[unsafe(no_mangle)]
pub extern "C" fn lpmag_cell(cells: &[u8], held: u64, cell: usize, byte: &mut u8) -> u8
    ensures { CellGiven cells.now held cell byte.old result byte.new }
{
    hand(Accumulated { cells, held }.cell(cell), byte)
}

#[unsafe(no_mangle)]
pub extern "C" fn lpmag_electron_sample(
    cells: &[u8],
    held: u64,
    bin: usize,
    number: usize,
    angle: usize,
    low: &mut u64,
    high: &mut u64,
) -> u8
    ensures { AskedGiven (sample_asked cells.now held bin number angle)
        low.old high.old result low.new high.new }
{
    let of = Accumulated { cells, held };
    hand_count(electrons::sample(of, bin, number, angle), low, high)
}

#[unsafe(no_mangle)]
pub extern "C" fn lpmag_three_d(
    cells: &[u8],
    held: u64,
    step: usize,
    angle: usize,
    low: &mut u64,
    high: &mut u64,
) -> u8
    ensures { AskedGiven (three_asked cells.now held step angle)
        low.old high.old result low.new high.new }
{
    let of = Accumulated { cells, held };
    hand_count(electrons::three_d(of, step, angle), low, high)
}

#[unsafe(no_mangle)]
pub extern "C" fn lpmag_total(cells: &[u8], held: u64, low: &mut u64, high: &mut u64) -> u8
    ensures { AskedGiven (header_asked total_cell cells.now held)
        low.old high.old result low.new high.new }
{
    hand_count(electrons::total(Accumulated { cells, held }), low, high)
}

#[unsafe(no_mangle)]
pub extern "C" fn lpmag_rate(cells: &[u8], held: u64, low: &mut u64, high: &mut u64) -> u8
    ensures { AskedGiven (header_asked rate_cell cells.now held)
        low.old high.old result low.new high.new }
{
    hand_count(electrons::rate(Accumulated { cells, held }), low, high)
}

#[unsafe(no_mangle)]
pub extern "C" fn lpmag_bin_samples(bin: usize) -> u8
    ensures { result ≡ bin_samples bin }
{
    electrons::samples_of(bin).unwrap_or(NO_SUCH_BIN)
}
