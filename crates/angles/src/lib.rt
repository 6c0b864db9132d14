// Anode and spin phase to one of the 88 angles (01, "Angles"; 000, section 2.3.2).
#![tactic(auto)]

ghost use Rattle.angles.specs.Angles.{AngleIs};

// An anode's first angle, and how many phases an angle of it covers.
#[derive(Clone, Copy)]
struct Anode(u8, u8);

const ANODES: [Anode; 16] = [
    Anode(0, 4),
    Anode(2, 2),
    Anode(6, 1),
    Anode(14, 1),
    Anode(22, 1),
    Anode(30, 1),
    Anode(38, 2),
    Anode(42, 4),
    Anode(44, 4),
    Anode(46, 2),
    Anode(50, 1),
    Anode(58, 1),
    Anode(66, 1),
    Anode(74, 1),
    Anode(82, 2),
    Anode(86, 4),
];

// The angle, 0 to 87, of an anode 0 to 15 at a spin phase 0 to 7; none where there is no such bin.
#[tactic(auto, using(crate::proofs::Sky::at_row))]
pub fn angle_of(anode: usize, phase: usize) -> Option<u8>
    ensures { AngleIs anode phase result }
{
    let Anode(first, phases) = *ANODES.get(anode)?;
    if 7 < phase {
        return None;
    }
    Some(first + (phase as u8) / phases)
}
