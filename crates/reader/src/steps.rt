// Step and finish: what is decided is done to the buffers.
ghost use Rattle.reader.specs.Lent.{held, SameLent};
ghost use Rattle.reader.specs.Steps.{StepIs, FinishIs};

use crate::Lent;
use crate::cells_part::work_cells;
use crate::moving::close;
use crate::samples_part::work_samples;
use crate::snapshot_part::work_snapshot;
use state::{Finished, State, Stepped};

// One record.
pub fn step(state: State, lent: &mut Lent, r: &[u8]) -> Stepped
    ensures is { StepIs state (held lent.old) r.now result (held lent.new) }
    ensures same_references { SameLent lent.old lent.new }
{
    // lent on as a part, the record is handed to this function as two numbers, and not as the place of two that were just stored
    let record = &r[0..];
    let decided = state::decide(state, lent.is_sized(), record);
    let stepped = decided.stepped;
    let works = decided.works;
    let packet = record::packet_in(record);
    work_samples(
        works.samples,
        packet,
        lent.open_samples,
        lent.finished_samples,
    );
    work_cells(works.cells, packet, lent.open_cells, lent.finished_cells);
    work_snapshot(
        works.one,
        works.two,
        packet,
        lent.open_snapshot,
        lent.first_snapshot,
        lent.second_snapshot,
    );
    stepped
}

// Closes what is open, and lays nothing.
pub fn finish(state: State, lent: &mut Lent) -> Finished
    ensures is { FinishIs state (held lent.old) result (held lent.new) }
    ensures same_references { SameLent lent.old lent.new }
{
    let ended = state::end(state, lent.is_sized());
    let finished = ended.finished;
    let works = ended.works;
    close(
        works.samples.work,
        0,
        lent.open_samples,
        lent.finished_samples,
    );
    close(works.cells, 0, lent.open_cells, lent.finished_cells);
    close(works.one.work, 0, lent.open_snapshot, lent.first_snapshot);
    finished
}
