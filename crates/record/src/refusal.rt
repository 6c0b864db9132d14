// The numbers that a refused record gets (01, "Numbers a refused record gets"; 02, request 1, for the last).
ghost use Rattle.std.specs.Prelude.{◌≡◌};
ghost use Rattle.record.specs.Refusals.{refusal_number};

// 2 to 11 are the record's own, 1, 12 and 14 the reader's. 13, the old guard, is in 01's table and can't hit (02, request 11): no answer has it.
#[derive(Clone, Copy, Debug, PartialEq, Eq)]
pub enum Refusal {
    BufferOrState = 1,
    Length = 2,
    Sync = 3,
    Spacecraft = 4,
    Rate = 5,
    Spare = 6,
    Day = 7,
    Millisecond = 8,
    StatusSpare = 9,
    Flag = 10,
    FrameType = 11,
    NotLater = 12,
    OldGuard = 13,
    PastTurns = 14,
}

impl Refusal {
    // 01's number.
    #[tactic(auto, unfolding(crate::specs::Refusals::refusal_number))]
    pub fn number(self) -> u8
        ensures { result ≡ refusal_number self }
    {
        self as u8
    }
}
