// Rules 2 to 11 (01, "Numbers a refused record gets"): one function for each rule past the first, of a record's size.
ghost use Rattle.std.specs.Prelude.{◌≡◌};
ghost use Rattle.record.specs.Rules.{sync_holds, spacecraft_holds, rate_holds, spare_holds, day_holds, millisecond_holds};
ghost use Rattle.record.specs.Rules.{status_spare_holds, flag_holds, flags_hold, type_holds, broken, verdict_of, VerdictIs};
ghost use Rattle.record.specs.Inner.Requiring.{required, SizedIs};

use crate::frame::{Kind, kind_of};
use crate::{Record, Refusal};

#[tactic(auto, using(crate::proofs::Columns::sync_test))]
fn sync_holds(r: &[u8; Record::SIZE]) -> bool
    ensures { result ≡ sync_holds r.now }
{
    bits::word32(r, Record::SYNC_AT) == Record::SYNC
}

// Version and spacecraft, the upper ten bits of the header word.
#[tactic(auto, using(crate::proofs::Columns::spacecraft_test))]
fn spacecraft_holds(r: &[u8; Record::SIZE]) -> bool
    ensures { result ≡ spacecraft_holds r.now }
{
    bits::word16(r, Record::HEADER_AT) / 64 == Record::VERSION_SPACECRAFT
}

#[tactic(auto, using(crate::proofs::Columns::rate_test))]
fn rate_holds(r: &[u8; Record::SIZE]) -> bool
    ensures { result ≡ rate_holds r.now }
{
    bits::word16(r, Record::HEADER_AT) % 64 == Record::RATE
}

#[tactic(auto, using(crate::proofs::Columns::spare_test))]
fn spare_holds(r: &[u8; Record::SIZE]) -> bool
    ensures { result ≡ spare_holds r.now }
{
    r[Record::SPARE_AT] == 0
}

#[tactic(auto, using(crate::proofs::Columns::day_low, crate::proofs::Columns::day_within, crate::proofs::Columns::day_high))]
fn day_holds(r: &[u8; Record::SIZE]) -> bool
    ensures { result ≡ day_holds r.now }
{
    matches!(bits::word16(r, Record::DAY_AT), 1..=Record::DAYS)
}

#[tactic(auto, using(crate::proofs::Columns::millisecond_test))]
fn millisecond_holds(r: &[u8; Record::SIZE]) -> bool
    ensures { result ≡ millisecond_holds r.now }
{
    bits::word32(r, Record::MILLISECOND_AT) < Record::MILLISECONDS
}

// The upper ten bits of the status word.
#[tactic(auto, using(crate::proofs::Columns::status_test))]
fn status_spare_holds(r: &[u8; Record::SIZE]) -> bool
    ensures { result ≡ status_spare_holds r.now }
{
    bits::word16(r, Record::STATUS_AT) / 64 == 0
}

fn flag_holds(f: u16) -> bool
    ensures { result ≡ flag_holds f }
{
    f == 1 || f == 2
}

// Three flags of two bits, the lower six bits of the status word.
#[tactic(auto, using(crate::proofs::Columns::flags_test))]
fn flags_hold(r: &[u8; Record::SIZE]) -> bool
    ensures { result ≡ flags_hold r.now }
{
    let status = bits::word16(r, Record::STATUS_AT);
    flag_holds(status / 16 % 4) && flag_holds(status / 4 % 4) && flag_holds(status % 4)
}

fn type_holds(r: &[u8; Record::SIZE]) -> bool
    ensures { result ≡ type_holds r.now }
{
    let kind = kind_of(&r[Record::PACKET_AT..Record::PACKET_END]);
    !matches!(kind, Kind::Undefined)
}

// Rule 2: a record by its size, which all that look into it ask by its type.
pub(crate) fn sized(r: &[u8]) -> Result<&[u8; Record::SIZE], Refusal>
    ensures { SizedIs r.now result }
{
    r.as_array().ok_or(Refusal::Length)
}

// Refused for a rule that doesn't hold. A flag: each rule's test is a `Bool` in the definitions.
fn require(holds: bool, refusal: Refusal) -> Result<(), Refusal>
    ensures { result ≡ required holds refusal }
{
    if holds { Ok(()) } else { Err(refusal) }
}

// Rules 3 to 11 of a record of the right size, in their order.
#[tactic(auto, unfolding(crate::proofs::Order::opened, crate::specs::Rules::size_holds))]
pub(crate) fn check_sized(r: &[u8; Record::SIZE]) -> Result<(), Refusal>
    ensures { result ≡ verdict_of (broken r.now) }
{
    require(sync_holds(r), Refusal::Sync)?;
    require(spacecraft_holds(r), Refusal::Spacecraft)?;
    require(rate_holds(r), Refusal::Rate)?;
    require(spare_holds(r), Refusal::Spare)?;
    require(day_holds(r), Refusal::Day)?;
    require(millisecond_holds(r), Refusal::Millisecond)?;
    require(status_spare_holds(r), Refusal::StatusSpare)?;
    require(flags_hold(r), Refusal::Flag)?;
    require(type_holds(r), Refusal::FrameType)
}

// Passes, or refused with the number of the first rule of 2 to 11 that fails.
pub fn check(r: &[u8]) -> Result<(), Refusal>
    ensures { VerdictIs r.now result }
{
    check_sized(sized(r)?)
}
