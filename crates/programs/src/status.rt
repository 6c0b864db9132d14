// What a program ends with.
ghost use Rattle.std.specs.Prelude.{◌≡◌};
ghost use Rattle.std.specs.Process.{exit_status};
ghost use Rattle.programs.specs.Status.{number};

use std::process::ExitCode;

#[derive(Clone, Copy, Debug, PartialEq, Eq)]
pub enum Status {
    // all was read and written
    Done = 0,
    // something could not be read or written
    Failed = 1,
    // the program was told what it doesn't know
    WrongUse = 2,
}

impl From<Status> for ExitCode {
    ghost from_gives = { λ status code. exit_status code ≡ number status };

    #[tactic(auto, unfolding(crate::specs::Status::number))]
    fn from(status: Status) -> ExitCode {
        ExitCode::from(status as u8)
    }
}

// Something could not be read or written, and that was said.
#[derive(Clone, Copy, Debug, PartialEq, Eq)]
pub struct Failed;

impl From<Failed> for Status {
    ghost from_gives = { λ failed status. number status ≡ 1 };

    #[tactic(auto, unfolding(crate::specs::Status::number))]
    fn from(_failed: Failed) -> Status {
        Status::Failed
    }
}
