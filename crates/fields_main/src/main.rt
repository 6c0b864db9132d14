// The program fields: it runs its body, the room below, whose status it ends with.
#![tactic(auto)]

ghost use Rattle.std.specs.Prelude.{◌≤◌};
ghost use Rattle.std.specs.Process.{exit_status};

use std::process::ExitCode;

// As the other program's: one line, which names its body.
// What the process ends with: 0 good, 1 not all could be read or written, 2 an unknown option.
pub fn fields_main(rt: &HostRuntime) -> ExitCode
    ensures { exit_status result ≤ 2 }
{
    ExitCode::from(fields_body::perform(rt))
}

fn main(rt: HostRuntime) -> ExitCode {
    fields_main(&rt)
}
