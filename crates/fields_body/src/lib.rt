// The program fields: it prints the fields of each record of its input, or the number of the first rule of 2 to 11 that it breaks. A
// short tail of the input is one record, refused with 2.
#![tactic(auto)]

ghost use Rattle.std.specs.Prelude.{◌≤◌};
ghost use Rattle.programs.specs.Status.{number};

mod line;

use line::Line;
use programs::{Failed, Program, Source, Status};
use record::Record;

const HEADER: &str =
    "record answer count day millisecond flags code type kind second subcom level quality\n";

const HELP: &[u8] = b"fields [FILE]...

Prints a line for each record of 472 bytes of Lunar Prospector's merged file: its
number, from 0 on, and either `passes` and its fields, or `refused` and the number
of the first of the rules 2 to 11 that it breaks. The input is the files named,
their bytes laid end to end, or standard input.

The fields: frame count, day of year, millisecond of day, the three status flags,
frame code, frame type, kind of the frame, the type byte of a second burst packet,
subcom word, signal level and quality, each with its 32 bits.

";

// The lines of all records. A proved loop has to end, and nothing says that a file does: it counts its turns, which are the records'
// numbers, up to one that no run reaches. A flag, as the program's options are.
fn print(program: Program, from_files: bool) -> Result<(), Failed> {
    program.print(HEADER)?;
    let mut source = Source::new(program, from_files);
    let mut r = [0u8; Record::SIZE];
    for number in 0..u64::MAX {
        let got = source.fill(&mut r);
        if got > 0 {
            let line = Line {
                number,
                fields: record::fields(&r[..got]),
            };
            program.print(format_args!("{line}\n"))?;
        }
        if got < Record::SIZE {
            break;
        }
    }
    source.all_read()
}

// It has no options of its own.
fn run(program: Program) -> Result<(), Status> {
    let options = program.begin(&[], HELP)?;
    print(program, options.files)?;
    Ok(())
}

// Runs the program and answers its status: good, not all could be read or written, or an unknown option. As the other program's but for name
// and `run`: four lines.
#[tactic(auto, unfolding(programs::specs::Status::number))]
pub fn perform(rt: &HostRuntime) -> Status
    ensures { number result ≤ 2 }
{
    match run(Program {
        rt,
        name: b"fields",
    }) {
        Ok(()) => Status::Done,
        Err(status) => status,
    }
}
