// Step and finish.
ghost use Rattle.std.specs.Prelude.{◌≡◌};
ghost use Rattle.reader.specs.Lent.{held, SameLent};
ghost use Rattle.calls.specs.Reading.{handed, handed_closed, StepGiven, FinishGiven};

use reader::Lent;
use shapes::{CClosed, CReport, CState};
use state::{Finished, State, Stepped};

// The answer, and the state and the report after it.
#[derive(Clone, Copy, Debug, PartialEq, Eq)]
pub struct CStepped {
    pub answer: u8,
    pub state: CState,
    pub report: CReport,
}

// Finish's answer, the state after it, and what it closed.
#[derive(Clone, Copy, Debug, PartialEq, Eq)]
pub struct CFinished {
    pub answer: u8,
    pub state: CState,
    pub closed: CClosed,
}

// Of an accepted record the state after it and its report; a refusal leaves both as found.
#[tactic(auto, unfolding(crate::specs::Reading::handed))]
fn hand_over(x: Stepped, state: CState, report: CReport) -> CStepped
    ensures { result ≡ handed x state report }
{
    match x.answer {
        Err(refusal) => CStepped {
            answer: refusal.number(),
            state,
            report,
        },
        Ok(taken) => CStepped {
            answer: 0,
            state: CState::from(x.state),
            report: CReport::new(taken, x.closed),
        },
    }
}

pub fn step(state: CState, report: CReport, lent: &mut Lent, r: &[u8]) -> CStepped
    ensures is { StepGiven state report (held lent.old) r.now result (held lent.new) }
    ensures same_references { SameLent lent.old lent.new }
{
    let Ok(known) = State::try_from(state) else {
        return CStepped {
            answer: 1,
            state,
            report,
        };
    };
    let x = reader::step(known, lent, r);
    hand_over(x, state, report)
}

#[tactic(auto, unfolding(crate::specs::Reading::handed_closed))]
fn hand_over_closed(x: Finished, state: CState, closed: CClosed) -> CFinished
    ensures { result ≡ handed_closed x state closed }
{
    match x.ending {
        Err(refusal) => CFinished {
            answer: refusal.number(),
            state,
            closed,
        },
        Ok(()) => CFinished {
            answer: 0,
            state: CState::from(x.state),
            closed: CClosed::from(x.closed),
        },
    }
}

pub fn finish(state: CState, closed: CClosed, lent: &mut Lent) -> CFinished
    ensures is { FinishGiven state closed (held lent.old) result (held lent.new) }
    ensures same_references { SameLent lent.old lent.new }
{
    let Ok(known) = State::try_from(state) else {
        return CFinished {
            answer: 1,
            state,
            closed,
        };
    };
    let x = reader::finish(known, lent);
    hand_over_closed(x, state, closed)
}
