// The type that carries a cell (000, section 2.3).
ghost use Rattle.std.specs.Prelude.{◌≡◌, ◌<◌, ◌≤◌};
ghost use Rattle.carriage.specs.Carriage.{three_d, carrier};
ghost use Rattle.carriage.specs.Inner.Carriers.{half_spin_type, rest_size, rest_cell};

use crate::{CELLS, THREE_D_AT};

// Of sample s of bin 6 or 9, one every half-spin: S0 rides in type 1, S1 and S2 in type 3, S3 to S7 in types 4 to 8, S8 in type 9,
// S9 to S15 in types 11 to 17; and the next sixteen likewise, 18 types later.
fn half_spin_carrier(s: usize) -> usize
    requires { s < 32 }
    ensures { result ≡ half_spin_type s }
{
    let half = 18 * (s / 16);
    let k = s % 16;
    if k == 0 {
        return half + 1;
    }
    if k == 1 {
        return half + 3;
    }
    if k < 9 {
        return half + k + 1;
    }
    half + k + 2
}

// Of any sample: bins 0-4, 5, 6, 7 and 8, 9, 10, 11-14. A bin's later half rides 18 types after the earlier.
fn sample_carrier(p: usize) -> usize
    requires { (4 ≤ p) × (p < three_d) }
    ensures { result ≡ carrier p }
{
    let j = (p - 4) / 16;
    if j < 10 {
        return 18 * (j % 2);
    }
    if j < 12 {
        return 18 * (j % 2) + 1;
    }
    if j < 44 {
        return half_spin_carrier(j - 12);
    }
    if j < 52 {
        return 18 * (j / 2 % 2) + 8 * (j % 2) + 1;
    }
    if j < 84 {
        return half_spin_carrier(j - 52);
    }
    if j < 88 {
        return 18 * (j / 2 % 2) + 7 * (j % 2) + 2;
    }
    18 * (j / 2 % 2) + 8 * (j % 2) + 2
}

// Of what stands beside the samples, header and 3D bytes counted through: of types 0 to 17, types 0, 1, 2 and 9 carry 3 bytes,
// types 3 and 10 carry 19, the others 51, 662 in all; and types 18 to 35 the same again.
fn rest_carrier(x: usize) -> usize
    requires { x < rest_size }
    ensures { result ≡ carrier (rest_cell x) }
{
    let half = 18 * (x / 662);
    let y = x % 662;
    if y < 9 {
        return half + y / 3;
    }
    if y < 28 {
        return half + 3;
    }
    if y < 283 {
        return half + 4 + (y - 28) / 51;
    }
    if y < 286 {
        return half + 9;
    }
    if y < 305 {
        return half + 10;
    }
    half + 11 + (y - 305) / 51
}

// The type that carries cell p; 36 where none does: a number past the types and no option, as the definition `carrier` has it.
pub fn carrier_of(p: usize) -> usize
    ensures { result ≡ carrier p }
{
    if p < 4 {
        return rest_carrier(p);
    }
    if p < THREE_D_AT {
        return sample_carrier(p);
    }
    if p < CELLS {
        // 3D byte q, cell 1,668 + q, comes after the 4 header bytes
        return rest_carrier(p - 1664);
    }
    36
}
