// A row of the table as numbers, for laying a frame (000, section 2.3).
ghost use Rattle.std.specs.Prelude.{◌≡◌};
ghost use Rattle.carriage.specs.RowNumbers.{numbers_of};

// In frame order: how many samples, of 16 bytes each, and the first cell of each; the first header byte and how many; the first
// 3D byte, for what is left of the 83. Five places and a count beside them: a row is a line of the table, and no heap holds a shorter list.
#[derive(Clone, Copy)]
pub struct Numbers(pub usize, pub [usize; 5], pub usize, pub usize, pub usize);

// A line a type, held to the printed table. (A `const` table would be built anew at each read.) Above 35 nothing is carried.
pub fn numbers_of(t: u8) -> Numbers
    ensures { result ≡ numbers_of t }
{
    match t {
        0 => Numbers(5, [4, 36, 68, 100, 132], 0, 3, 0),
        1 => Numbers(5, [164, 196, 708, 772, 836], 3, 1, 0),
        2 => Numbers(5, [1348, 1412, 1476, 1540, 1604], 0, 0, 2),
        3 => Numbers(4, [212, 852, 228, 868, 0], 0, 0, 5),
        4 => Numbers(2, [244, 884, 0, 0, 0], 0, 0, 24),
        5 => Numbers(2, [260, 900, 0, 0, 0], 0, 0, 75),
        6 => Numbers(2, [276, 916, 0, 0, 0], 0, 0, 126),
        7 => Numbers(2, [292, 932, 0, 0, 0], 0, 0, 177),
        8 => Numbers(2, [308, 948, 0, 0, 0], 0, 0, 228),
        9 => Numbers(5, [324, 724, 788, 964, 1364], 0, 0, 279),
        10 => Numbers(4, [1428, 1492, 1556, 1620, 0], 0, 0, 282),
        11 => Numbers(2, [340, 980, 0, 0, 0], 0, 0, 301),
        12 => Numbers(2, [356, 996, 0, 0, 0], 0, 0, 352),
        13 => Numbers(2, [372, 1012, 0, 0, 0], 0, 0, 403),
        14 => Numbers(2, [388, 1028, 0, 0, 0], 0, 0, 454),
        15 => Numbers(2, [404, 1044, 0, 0, 0], 0, 0, 505),
        16 => Numbers(2, [420, 1060, 0, 0, 0], 0, 0, 556),
        17 => Numbers(2, [436, 1076, 0, 0, 0], 0, 0, 607),
        18 => Numbers(5, [20, 52, 84, 116, 148], 0, 0, 658),
        19 => Numbers(5, [180, 452, 740, 804, 1092], 0, 0, 661),
        20 => Numbers(5, [1380, 1444, 1508, 1572, 1636], 0, 0, 664),
        21 => Numbers(4, [468, 1108, 484, 1124, 0], 0, 0, 667),
        22 => Numbers(2, [500, 1140, 0, 0, 0], 0, 0, 686),
        23 => Numbers(2, [516, 1156, 0, 0, 0], 0, 0, 737),
        24 => Numbers(2, [532, 1172, 0, 0, 0], 0, 0, 788),
        25 => Numbers(2, [548, 1188, 0, 0, 0], 0, 0, 839),
        26 => Numbers(2, [564, 1204, 0, 0, 0], 0, 0, 890),
        27 => Numbers(5, [580, 756, 820, 1220, 1396], 0, 0, 941),
        28 => Numbers(4, [1460, 1524, 1588, 1652, 0], 0, 0, 944),
        29 => Numbers(2, [596, 1236, 0, 0, 0], 0, 0, 963),
        30 => Numbers(2, [612, 1252, 0, 0, 0], 0, 0, 1014),
        31 => Numbers(2, [628, 1268, 0, 0, 0], 0, 0, 1065),
        32 => Numbers(2, [644, 1284, 0, 0, 0], 0, 0, 1116),
        33 => Numbers(2, [660, 1300, 0, 0, 0], 0, 0, 1167),
        34 => Numbers(2, [676, 1316, 0, 0, 0], 0, 0, 1218),
        35 => Numbers(2, [692, 1332, 0, 0, 0], 0, 0, 1269),
        _ => Numbers(0, [0; 5], 0, 0, 0),
    }
}
