// The kind of a frame, by the Frame Type in the low six bits of the Frame Code, its top bit, and byte 85 (000, section 2.1; 01, "The
// packet"; 02, request 2), and what a frame of each kind carries.
ghost use Rattle.std.specs.Prelude.{◌≡◌};
ghost use Rattle.record.specs.Frame.{is_burst, kind_of_codes, KindIs, kind_number};
ghost use Rattle.record.specs.Frame.{carries_mag, carries_science, carries_burst, carries_two, first_burst, second_burst};

use crate::Record;

#[derive(Clone, Copy, Debug, PartialEq, Eq)]
pub enum Kind {
    RealTime(u8),
    HalfBurst,
    FullBurst,
    Other,
    Undefined,
}

// Is it the type of a burst packet?
#[tactic(auto, unfolding(crate::specs::Frame::is_burst))]
fn is_burst(t: u8) -> bool
    ensures { result ≡ is_burst t }
{
    matches!(t, 36..=57 | 62)
}

// By the Frame Code and byte 85, which is looked at in a full burst alone.
#[tactic(auto, unfolding(crate::specs::Frame::kind_of_codes))]
fn kind_of_codes(code: u8, second: u8) -> Kind
    ensures { result ≡ kind_of_codes code second }
{
    match code % 64 {
        t if t <= 35 => Kind::RealTime(t),
        t if is_burst(t) => {
            if code / 128 % 2 != 1 {
                Kind::HalfBurst
            } else if is_burst(second % 64) {
                Kind::FullBurst
            } else {
                Kind::Undefined
            }
        }
        63 => Kind::Other,
        _ => Kind::Undefined,
    }
}

// The kind of a packet's frame. Bytes that are no packet are undefined.
pub fn kind_of(packet: &[u8]) -> Kind
    ensures { KindIs packet.now result }
{
    if packet.len() != Record::PACKET_SIZE {
        return Kind::Undefined;
    }
    kind_of_codes(packet[Record::CODE_AT], packet[Record::SECOND_CODE_AT])
}

impl Kind {
    // The kind as one number, since C's `kind` is one; those that are no real-time type lie above all types.
    #[tactic(auto, unfolding(crate::specs::Frame::kind_number))]
    pub fn number(self) -> u8
        ensures { result ≡ kind_number self }
    {
        match self {
            Kind::RealTime(t) => t,
            Kind::HalfBurst => 66,
            Kind::FullBurst => 67,
            Kind::Other => 64,
            Kind::Undefined => 65,
        }
    }

    // Does a frame of this kind carry MAG that is kept?
    #[tactic(auto, unfolding(crate::specs::Frame::carries_mag))]
    pub fn carries_mag(self) -> bool
        ensures { result ≡ carries_mag self }
    {
        matches!(self, Kind::RealTime(_) | Kind::HalfBurst)
    }

    // Does a frame of this kind carry science bytes of an accumulation?
    #[tactic(auto, unfolding(crate::specs::Frame::carries_science))]
    pub fn carries_science(self) -> bool
        ensures { result ≡ carries_science self }
    {
        matches!(self, Kind::RealTime(_))
    }

    // Does a frame of this kind carry a burst packet?
    #[tactic(auto, unfolding(crate::specs::Frame::carries_burst))]
    pub fn carries_burst(self) -> bool
        ensures { result ≡ carries_burst self }
    {
        matches!(self, Kind::HalfBurst | Kind::FullBurst)
    }

    // Does a frame of this kind carry two burst packets?
    #[tactic(auto, unfolding(crate::specs::Frame::carries_two))]
    pub fn carries_two(self) -> bool
        ensures { result ≡ carries_two self }
    {
        matches!(self, Kind::FullBurst)
    }
}

// The type byte of the first burst packet, which is the Frame Code, of a frame that has one; else 0, which is no burst packet's.
// No option, since the definitions `first_burst` and `second_burst`, a record's `second_code` and C's field are numbers.
pub fn first_burst(kind: Kind, code: u8) -> u8
    ensures { result ≡ first_burst kind code }
{
    if kind.carries_burst() { code } else { 0 }
}

// The type byte of the second burst packet, byte 85, of a frame that has two; else 0.
pub(crate) fn second_burst(kind: Kind, code: u8) -> u8
    ensures { result ≡ second_burst kind code }
{
    if kind.carries_two() { code } else { 0 }
}
