// Whole records fed to the reader.
ghost use Rattle.std.specs.Prelude.{◌≡◌};
ghost use Rattle.reader.specs.Lent.{held, SameLent};
ghost use Rattle.feed.specs.Feeding.{nothing_fed, told, quiet, OneIs, FeedIs};

use crate::cutting::{cut, is_whole};
use reader::Lent;
use record::Refusal;
use state::{Closed, State, Stepped};

// Where the last record taken began and where the next begins, why the last was refused if it was, the state after it, and what it
// closed.
#[derive(Clone, Copy, Debug, PartialEq, Eq)]
pub struct Fed {
    pub from: usize,
    pub at: usize,
    pub refusal: Option<Refusal>,
    pub state: State,
    pub closed: Closed,
}

impl Fed {
    // No record taken yet.
    fn begin(state: State, at: usize) -> Self
        ensures { result ≡ nothing_fed state at }
    {
        Fed {
            from: at,
            at,
            refusal: None,
            state,
            closed: state::nothing_closed(),
        }
    }

    // The record that began at place `from` is taken, and the next begins at place `at`.
    fn told(from: usize, at: usize, stepped: Stepped) -> Self
        ensures { result ≡ told from at stepped }
    {
        Fed {
            from,
            at,
            refusal: stepped.answer.err(),
            state: stepped.state,
            closed: stepped.closed,
        }
    }

    // Was the last record accepted, and closed nothing?
    #[tactic(auto, unfolding(crate::specs::Feeding::is_nothing))]
    fn is_quiet(&self) -> bool
        ensures { result ≡ quiet self.now }
    {
        self.refusal.is_none()
            && self.closed.major.is_none()
            && self.closed.accumulation.is_none()
            && self.closed.first_snapshot.is_none()
            && self.closed.second_snapshot.is_none()
    }
}

// Takes the record that begins at place `at`, whole or not. State and `Lent` are two: a refusal hands the state back by value.
pub fn feed_one(state: State, lent: &mut Lent, bytes: &[u8], at: usize) -> Fed
    ensures is { OneIs state (held lent.old) bytes.now at result (held lent.new) }
    ensures same_references { SameLent lent.old lent.new }
{
    let r = cut(bytes, at);
    let stepped = reader::step(state, lent, r);
    Fed::told(at, at + r.len(), stepped)
}

// Takes the whole records of `bytes` from place `at` on, until one is refused or closes something or none is left.
pub fn feed(state: State, lent: &mut Lent, bytes: &[u8], at: usize) -> Fed
    ensures is { FeedIs state (held lent.old) bytes.now at result (held lent.new) }
    ensures same_references { SameLent lent.old lent.new }
{
    let mut fed = Fed::begin(state, at);
    // No `for`: nothing is counted, and where the next record begins is the last one's answer.
    while is_whole(bytes.len(), fed.at) && fed.is_quiet() {
        fed = feed_one(fed.state, lent, bytes, fed.at);
    }
    fed
}
