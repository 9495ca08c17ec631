// Plays the pairs of standard input, a bench digit and a key byte each, on a fresh desk, and prints the reports of its sheets (document 01, "Measured examples").
#![tactic(auto)]

ghost use Rattle.desk_memory.specs.Memory.{Sized, desk_of};
ghost use Rattle.desk.specs.Run.{PlaysPart, PlaysAll};

use desk_memory::{NUMBERS, TEXTS};
use program_printing::REPORTS_MOST;

// Standard input and output.
const STDIN: i32 = 0;

const STDOUT: i32 = 1;

// The bytes of the log, and of a part of the input. The second is even, so that a part that is full ends with a whole pair.
const LOG_LENGTH: usize = 4096;

const PART_LENGTH: usize = 4096;

// Reads one part, plays its pairs, and says whether the part was full: then more may come.
fn play_part(texts: &mut [u8], numbers: &mut [usize], log: &mut [u8]) -> bool
    ensures { PlaysPart texts.old numbers.old log.old result texts.new numbers.new log.new }
{
    let mut part = [0u8; PART_LENGTH];
    let n = io::read_full(STDIN, &mut part);
    desk_session::play_pairs(texts, numbers, log, &part[..n]);
    n == PART_LENGTH
}

// Plays all of the input on a fresh desk. A proved loop has to end, and nothing says that the input does: so the loop counts its turns, up to
// a number that no run reaches.
fn play_all(texts: &mut [u8], numbers: &mut [usize], log: &mut [u8])
    requires { Sized texts.old numbers.old }
    ensures { PlaysAll log.old (desk_of texts.new numbers.new) }
{
    desk_memory::fresh(texts, numbers);
    for _ in 0..u64::MAX {
        if !play_part(texts, numbers, log) {
            return;
        }
    }
}

// Prints the reports. Where they cannot be written nothing is left to do.
fn print(texts: &[u8], numbers: &[usize]) {
    let mut out = [0u8; REPORTS_MOST];
    let Some(n) = program_printing::print_reports(texts, numbers, &mut out) else {
        return;
    };
    io::write_all(STDOUT, &out[..n]);
}

fn main() {
    let mut texts = [0u8; TEXTS];
    let mut numbers = [0usize; NUMBERS];
    let mut log = [0u8; LOG_LENGTH];
    play_all(&mut texts, &mut numbers, &mut log);
    print(&texts, &numbers);
}
