//! Runs commands of mesamon that are rows of files, prints what came out otherwise than its row says, and at last how
//! many rows there were. Each line of standard input is the name of a file of rows. A file that can't be read ends the
//! program with an error. A row is a block of lines, each a key and what it says:
//!
//! ```text
//! row NAME            a row of this name begins
//! text LINE           a line of the file program.mesa
//! times COUNT TEXT    this text so many times, in program.mesa
//! bytes DIGITS        these bytes, in hexadecimal digits, in program.mesa
//! again               the program.mesa of the row before, in the same file
//! schedule LINE       a line of the file program.schedule
//! log LINE            a line of the file program.log
//! words WORD ..       the words of the command line
//! output LINE         a line that standard output has to have
//! errors LINE         a line that standard error has to have
//! room COUNT COUNT    how many bytes standard output and standard error take, before each write fails
//! output-part TEXT    the part of a line that standard output has to have taken
//! errors-part TEXT    the part of a line that standard error has to have taken
//! failures NUMBER     how many writes have to fail, where it isn't 0
//! logged LINE         a line that program.log has to have afterwards, where the row gives none
//! image DIGITS        the bytes that program.image has to have afterwards, in hexadecimal digits
//! status NUMBER       the exit status that is wanted, where it isn't 0
//! ```
//!
//! A row ends with its file. What is printed of a row begins with its file and the number of its first line.
//!
//! Empty lines and lines that begin with `#` say nothing. With no `text`, `times`, `bytes` and `again` there is no
//! program.mesa, with no `schedule` no program.schedule, and with no `image` there may be no program.image afterwards.
//! So it is with `log`, `logged` and program.log. A `logged` with no line is the empty file.
//!
//! A search tells for each 2,000 states that it keeps how far it has come, on a device of its own with the room of standard
//! error. What that took stands first among the lines of `errors`.
//!
//! Beside these there are rows of one line, of which what comes is printed:
//!
//! ```text
//! actions LIST | TEXT         a list of actions of the program of this text
//! actions-as-one LIST | TEXT  the same, of the program whose image is of the first version
//! logs COUNT MOST | TEXT      so many logs of the program's image, each of so many entries at most
//! strays COUNT MOST | TEXT    the same with wakes from outside of threads that sleep
//! kills COUNT MOST | TEXT     so many logs of one run, with a thread killed behind the first step, the second ..
//! kills-linux ..              the same by Linux's rule of exits, of the image for it
//! seeds COUNT STEPS STRAYS KILLS | TEXT
//!                             the runs by the seeds from 1 to COUNT, of so many steps at most, with about one wake from
//!                             outside in so many entries, or none where that is 0, and with so many kills at most
//! seeds-linux ..              the same by Linux's rule of exits
//! workers COUNT | TEXT        so many runs of the program on real workers
//! ```
//!
//! A list has actions, with commas between them; an action is the process, the action's name, and its numbers:
//!
//! ```text
//! assign  test  call  return  end             none
//! print NUMBER                                the number printed
//! fork PROCESS  claim PROCESS  join PROCESS   the process made, claimed or joined
//! fault NUMBER                                the fault, from 1 to 8
//! enter MONITOR  exit MONITOR                 the monitor, from 0 in the order of the text
//! resume MONITOR  abandon MONITOR
//! wait MONITOR MEMBER                         the monitor and the condition, from 0 among its members
//! notify MONITOR MEMBER PROCESS ..            the same, and the processes resumed
//! broadcast MONITOR MEMBER PROCESS ..
//! ```
//!
//! Of a list that is a run of its program the line printed has the processes that can move at its end and the numbers
//! printed; of any other it has the first action that isn't possible, from 1.
//!
//! Logs are explained, and forged ones too (`test_logs`): the line printed tells how many logs were explained by runs
//! of the program, and how many were refused as another image's, or forged in each way. Of logs with wakes from outside
//! it tells how many have one, and how many were refused with a local step before the first, with the first twice, and
//! with nobody woken by it. Of logs with a kill it tells how many have one, by how many of these a thread begins to
//! die, and how many logs were refused with a local step before it, and with its other value.
//!
//! Of runs by seeds the line printed tells how many there are, how many of them are explained by runs of the program,
//! and how many kills the one with most has.
//!
//! Of runs on real workers the log is written and read again, and explained: the line printed tells how many of the
//! explanations are runs of the program that print what was printed.
#![tactic(auto)]

mod device;
mod fault;
mod files;
mod lists;
mod outcome;
mod row;
mod tally;
mod worker_runs;

use crate::files::take_file;
use crate::tally::Tally;
use std::io;
use std::process::ExitCode;

fn main(rt: HostRuntime) -> io::Result<ExitCode> {
    let mut tally = Tally::new();
    for name in rt.lines(rt.alloc()) {
        let name = name?;
        take_file(&rt, &mut tally, name.as_str())?;
    }
    tally.finish(&rt)
}
