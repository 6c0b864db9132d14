// All work on the open snapshot and the two finished ones.
ghost use Rattle.std.specs.Prelude.{true, ◌≡◌};
ghost use Rattle.record.specs.Parts.{burst_bytes};
ghost use Rattle.reader.specs.Buffers.{packet_laid_by};
ghost use Rattle.reader.specs.Inner.Asked.{is_busy, BurstReady, PacketReady, PacketWorked, SnapshotReady, SnapshotWorked};

use crate::moving::close;
use buffers::Work;
use snapshot::PacketWork;

// The bytes of the first burst packet, or of the second, where its type has them. `lays` is a flag, as in `Work` and `packet_laid_by`
// (reader/Buffers).
fn lay_packet(lays: bool, at: usize, second: bool, packet: &[u8], bytes: &mut [u8])
    requires { lays ≡ true → BurstReady at second packet.now bytes.old }
    ensures { bytes.new ≡ packet_laid_by lays (burst_bytes packet.now second) at bytes.old }
{
    if lays {
        buffers::lay(record::burst_bytes(packet, second), bytes, at);
    }
}

// Closed, laid into: in this order. `second` is a flag, as in `burst_bytes` (record/Parts).
fn work_packet(
    work: PacketWork,
    second: bool,
    packet: &[u8],
    opened: &mut [u8],
    finished: &mut [u8],
)
    requires { PacketReady work second packet.now opened.old finished.old }
    ensures { PacketWorked work second packet.now opened.old finished.old
        opened.new finished.new }
{
    let todo = work.work;
    close(todo, 0, opened, finished);
    lay_packet(todo.lays, work.at, second, packet, opened);
}

// Both packets, one after the other. What closes second goes into the second finished snapshot only where the first is taken.
fn work_packets(
    one: PacketWork,
    two: PacketWork,
    packet: &[u8],
    opened: &mut [u8],
    first: &mut [u8],
    second: &mut [u8],
)
    requires { SnapshotReady one two packet.now opened.old first.old second.old }
    ensures { SnapshotWorked one two packet.now opened.old first.old second.old
        opened.new first.new second.new }
{
    work_packet(one, false, packet, opened, first);
    if one.work.copies {
        work_packet(two, true, packet, opened, second);
    } else {
        work_packet(two, true, packet, opened, first);
    }
}

// Is anything to be done?
#[tactic(auto, unfolding(crate::specs::Inner::Asked::is_busy))]
fn is_busy(work: Work) -> bool
    ensures { result ≡ is_busy work }
{
    work.copies || work.clears || work.lays
}

// Most records have no packet, and close nothing.
pub(crate) fn work_snapshot(
    one: PacketWork,
    two: PacketWork,
    packet: &[u8],
    opened: &mut [u8],
    first: &mut [u8],
    second: &mut [u8],
)
    requires { SnapshotReady one two packet.now opened.old first.old second.old }
    ensures { SnapshotWorked one two packet.now opened.old first.old second.old
        opened.new first.new second.new }
{
    if is_busy(one.work) || is_busy(two.work) {
        work_packets(one, two, packet, opened, first, second);
    }
}
