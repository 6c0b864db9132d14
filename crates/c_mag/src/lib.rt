// The magnetometer, for C; include/lpmag.h documents each function. Parameters are C's.
#![tactic(auto)]

ghost use Rattle.std.specs.Prelude.{◌≡◌};
ghost use Rattle.c_mag.specs.Magnetometer.{range_number, SamplesGiven, FieldGiven};

use c_answers::NO_SUCH_PLACE;

#[unsafe(no_mangle)]
pub extern "C" fn lpmag_range(mag: &[u8]) -> u8
    ensures { result ≡ range_number mag.now }
{
    mag::range_of(mag).unwrap_or(NO_SUCH_PLACE)
}

#[unsafe(no_mangle)]
pub extern "C" fn lpmag_samples(mag: &[u8], room: &mut [i16]) -> u8
    ensures { SamplesGiven mag.now room.old result room.new }
{
    mag::lay(mag, room).unwrap_or(NO_SUCH_PLACE)
}

#[unsafe(no_mangle)]
pub extern "C" fn lpmag_field(sample: i16, range: u8, field: &mut f32) -> u8
    ensures { FieldGiven sample range field.old result field.new }
{
    let Some(nanotesla) = mag::field_of(sample, range) else {
        return NO_SUCH_PLACE;
    };
    *field = nanotesla;
    0
}
