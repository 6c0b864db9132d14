// The program lpmag: it prints the listing of the records in its input (01, "The listing, whole"), of standard input, or of the files
// that its arguments name, their bytes laid end to end. It only reads, writes and says what failed: records are cut, read and listed
// by the proved libraries.
#![tactic(auto)]

ghost use Rattle.std.specs.Prelude.{◌≤◌};
ghost use Rattle.programs.specs.Status.{number};

mod intake;
mod page;

use bursts::SNAPSHOT;
use cells::CELLS_SIZE;
use intake::Intake;
use major::MAJOR_SAMPLES;
use page::Page;
use programs::{Failed, Options, Program, Source, Status};
use reader::Lent;

const HELP: &[u8] = b"lpmag [-v] [FILE]...

Reads records of 472 bytes of Lunar Prospector's merged file, each a 2-second
frame, and lists what the MAG/ER packets in them make up. The input is the files
named, their bytes laid end to end, or standard input.

The listing, on standard output:
  kind first frames cells   the first line
  major F N C               a major frame: 16 times its number, the slots held,
                            54 magnetometer numbers for each slot that has them
  accum F N C               an electron accumulation: the count of its first
                            frame, the frames held, 83 cells for each
  snap F N C                a burst snapshot: the count of the frame with its
                            first packet, the packets held, 82 cells for each
  refused N                 the last line: how many records were refused
Counts go on where those of the records restart at 0: 16777216 more each time.

  -v   also says of each refused record, on standard error, which it is, where
       it begins, the number of the rule that it breaks and what the rule says
";

// The listing of all that can be read. It ends at once when nothing can be written any more. A proved loop has to end, and nothing says
// that a file does: it counts its turns, up to a number that no run reaches. Flags, as the program's options are.
fn list(program: Program, from_files: bool, verbose: bool) -> Result<(), Failed> {
    let mut intake = Intake::new(Source::new(program, from_files));
    let mut lent = Lent {
        open_cells: &mut [0; CELLS_SIZE],
        finished_cells: &mut [0; CELLS_SIZE],
        open_samples: &mut [0; MAJOR_SAMPLES],
        finished_samples: &mut [0; MAJOR_SAMPLES],
        open_snapshot: &mut [0; SNAPSHOT],
        first_snapshot: &mut [0; SNAPSHOT],
        second_snapshot: &mut [0; SNAPSHOT],
    };
    let mut state = state::fresh();
    let mut page = Page::new(program, verbose);
    for _ in 0..u64::MAX {
        if !intake.goes_on() {
            break;
        }
        intake.refill();
        let fed = feed::feed(state, &mut lent, intake.bytes(), intake.at);
        state = fed.state;
        intake.at = fed.at;
        page.tell(fed, intake.offset(fed.from))?;
    }
    // "A short tail of the input is one record refused with 2." No byte is no record. Rule 1 comes before, and holds: state and buffers
    // are the program's own.
    let rest = feed::cut(intake.bytes(), intake.at);
    if let Err(refusal) = record::check(rest)
        && !rest.is_empty()
    {
        page.refuse(intake.offset(intake.at), refusal);
    }
    page.end(reader::finish(state, &mut lent).closed)?;
    intake.all_read()
}

fn run(program: Program) -> Result<(), Status> {
    let Options {
        given: [verbose],
        files,
        ..
    } = program.begin(b"v", HELP)?;
    list(program, files, verbose)?;
    Ok(())
}

// Runs the program and answers its status: good, not all could be read or written, or an unknown option. As the other program's but for name
// and `run`: four lines.
#[tactic(auto, unfolding(programs::specs::Status::number))]
pub fn perform(rt: &HostRuntime) -> Status
    ensures { number result ≤ 2 }
{
    match run(Program { rt, name: b"lpmag" }) {
        Ok(()) => Status::Done,
        Err(status) => status,
    }
}
