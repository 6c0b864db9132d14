// What is to be done to an open buffer and the finished one beside it (01, "Joining accumulations").
ghost use Rattle.std.specs.Prelude.{◌≡◌};
ghost use Rattle.buffers.specs.Working.{no_work, closing_work};

// The open one copied to the finished; the open one cleared; the record's own bytes laid into it: in this order. Three flags, and no value
// beside one: `Works` and `worked` (reader/Buffers) ask each by itself.
#[derive(Clone, Copy, Debug, PartialEq, Eq)]
pub struct Work {
    pub copies: bool,
    pub clears: bool,
    pub lays: bool,
}

pub fn no_work() -> Work
    ensures { result ≡ no_work }
{
    Work {
        copies: false,
        clears: false,
        lays: false,
    }
}

// The open buffer is copied and cleared where something is held: a flag, as in the definition of that name.
pub fn closing_work(held: bool) -> Work
    ensures { result ≡ closing_work held }
{
    Work {
        copies: held,
        clears: held,
        lays: false,
    }
}
