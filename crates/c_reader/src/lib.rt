// The reader, for C: the state and the report are structs, lent. include/lpmag.h documents each function. The seven buffers are
// parameters each, as C lends them. What an exported function calls takes the structs by value and each buffer as it came, the shape
// of the law of `lent` (lent/Storing); it puts the buffers together.
#![tactic(auto)]

ghost use Rattle.reader.specs.Buffers.{buffers};
ghost use Rattle.calls.specs.Reading.{handed_back, back_closed, StepGiven, FinishGiven};

use calls::{CFinished, CStepped};
use reader::Lent;
use shapes::{CClosed, CReport, CState};

fn stepped(
    state: CState,
    report: CReport,
    open_cells: &mut [u8],
    finished_cells: &mut [u8],
    open_samples: &mut [i16],
    finished_samples: &mut [i16],
    open_snapshot: &mut [u8],
    first: &mut [u8],
    second: &mut [u8],
    r: &[u8],
) -> CStepped
    ensures { StepGiven state report
        (buffers open_cells.old finished_cells.old open_samples.old finished_samples.old
        open_snapshot.old first.old second.old)
        r.now result
        (buffers open_cells.new finished_cells.new open_samples.new finished_samples.new
        open_snapshot.new first.new second.new) }
{
    let mut lent = Lent {
        open_cells,
        finished_cells,
        open_samples,
        finished_samples,
        open_snapshot,
        first_snapshot: first,
        second_snapshot: second,
    };
    calls::step(state, report, &mut lent, r)
}

fn finished(
    state: CState,
    closed: CClosed,
    open_cells: &mut [u8],
    finished_cells: &mut [u8],
    open_samples: &mut [i16],
    finished_samples: &mut [i16],
    open_snapshot: &mut [u8],
    first_snapshot: &mut [u8],
    second_snapshot: &mut [u8],
) -> CFinished
    ensures { FinishGiven state closed
        (buffers open_cells.old finished_cells.old open_samples.old finished_samples.old
        open_snapshot.old first_snapshot.old second_snapshot.old)
        result
        (buffers open_cells.new finished_cells.new open_samples.new finished_samples.new
        open_snapshot.new first_snapshot.new second_snapshot.new) }
{
    let mut lent = Lent {
        open_cells,
        finished_cells,
        open_samples,
        finished_samples,
        open_snapshot,
        first_snapshot,
        second_snapshot,
    };
    calls::finish(state, closed, &mut lent)
}

#[unsafe(no_mangle)]
pub extern "C" fn lpmag_step(
    state: &mut CState,
    report: &mut CReport,
    open_cells: &mut [u8],
    finished_cells: &mut [u8],
    open_samples: &mut [i16],
    finished_samples: &mut [i16],
    open_snapshot: &mut [u8],
    first_snapshot: &mut [u8],
    second_snapshot: &mut [u8],
    r: &[u8],
) -> u8
    ensures { StepGiven state.old report.old
        (buffers open_cells.old finished_cells.old open_samples.old finished_samples.old
        open_snapshot.old first_snapshot.old second_snapshot.old)
        r.now (handed_back result state.new report.new)
        (buffers open_cells.new finished_cells.new open_samples.new finished_samples.new
        open_snapshot.new first_snapshot.new second_snapshot.new) }
{
    let y = stepped(
        *state,
        *report,
        open_cells,
        finished_cells,
        open_samples,
        finished_samples,
        open_snapshot,
        first_snapshot,
        second_snapshot,
        r,
    );
    if y.answer == 0 {
        *state = y.state;
        *report = y.report;
    }
    y.answer
}

#[unsafe(no_mangle)]
pub extern "C" fn lpmag_finish(
    state: &mut CState,
    closed: &mut CClosed,
    open_cells: &mut [u8],
    finished_cells: &mut [u8],
    open_samples: &mut [i16],
    finished_samples: &mut [i16],
    open_snapshot: &mut [u8],
    first_snapshot: &mut [u8],
    second_snapshot: &mut [u8],
) -> u8
    ensures { FinishGiven state.old closed.old
        (buffers open_cells.old finished_cells.old open_samples.old finished_samples.old
        open_snapshot.old first_snapshot.old second_snapshot.old)
        (back_closed result state.new closed.new)
        (buffers open_cells.new finished_cells.new open_samples.new finished_samples.new
        open_snapshot.new first_snapshot.new second_snapshot.new) }
{
    let y = finished(
        *state,
        *closed,
        open_cells,
        finished_cells,
        open_samples,
        finished_samples,
        open_snapshot,
        first_snapshot,
        second_snapshot,
    );
    if y.answer == 0 {
        *state = y.state;
        *closed = y.closed;
    }
    y.answer
}
