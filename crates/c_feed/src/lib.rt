// Many records a call, for C: the state and the report are structs, lent. include/lpmag.h documents the function, which is lent
// seven buffers as parameters, as C has them, and hands them on so, the shape of the law of `lent` (lent/Storing). It stands in a room
// of its own, and so in an archive of its own, where it alone calls the reader's step: the compiler then lays all of a step into it.
#![tactic(auto)]

ghost use Rattle.reader.specs.Buffers.{buffers};
ghost use Rattle.calls.specs.Feeding.{back_fed, FeedGiven};

use calls::CFeeding;
use reader::Lent;
use shapes::{CFed, CState};

fn feeding(
    state: CState,
    fed: CFed,
    open_cells: &mut [u8],
    finished_cells: &mut [u8],
    open_samples: &mut [i16],
    finished_samples: &mut [i16],
    open_snapshot: &mut [u8],
    first: &mut [u8],
    second: &mut [u8],
    bytes: &[u8],
) -> CFeeding
    ensures { FeedGiven state fed
        (buffers open_cells.old finished_cells.old open_samples.old finished_samples.old
        open_snapshot.old first.old second.old)
        bytes.now result
        (buffers open_cells.new finished_cells.new open_samples.new finished_samples.new
        open_snapshot.new first.new second.new) }
{
    let mut lent = Lent {
        open_cells,
        finished_cells,
        open_samples,
        finished_samples,
        open_snapshot,
        first_snapshot: first,
        second_snapshot: second,
    };
    calls::feed(state, fed, &mut lent, bytes)
}

#[unsafe(no_mangle)]
pub extern "C" fn lpmag_feed(
    state: &mut CState,
    fed: &mut CFed,
    open_cells: &mut [u8],
    finished_cells: &mut [u8],
    open_samples: &mut [i16],
    finished_samples: &mut [i16],
    open_snapshot: &mut [u8],
    first_snapshot: &mut [u8],
    second_snapshot: &mut [u8],
    bytes: &[u8],
) -> u8
    ensures { FeedGiven state.old fed.old
        (buffers open_cells.old finished_cells.old open_samples.old finished_samples.old
        open_snapshot.old first_snapshot.old second_snapshot.old)
        bytes.now (back_fed result state.new fed.new)
        (buffers open_cells.new finished_cells.new open_samples.new finished_samples.new
        open_snapshot.new first_snapshot.new second_snapshot.new) }
{
    let y = feeding(
        *state,
        *fed,
        open_cells,
        finished_cells,
        open_samples,
        finished_samples,
        open_snapshot,
        first_snapshot,
        second_snapshot,
        bytes,
    );
    if y.answer == 0 {
        *state = y.state;
        *fed = y.fed;
    }
    y.answer
}
