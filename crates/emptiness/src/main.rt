// The program: reads an image from standard input, decides emptiness, and prints the five numbers of the run and then the frame or the word.
// Proved of it is which bytes it makes of those that it has read (`report`); that it reads and writes them is tried by running.
#![tactic(auto)]

ghost use Rattle.std.specs.Prelude.{◌≡◌, ◌≤◌, ◌<◌, length, take, IfOk, IsOk};
ghost use Rattle.std.specs.Io.KnownBytes.{Consumes, IsAtEnd};
ghost use Rattle.automata.specs.Answers.{image_number};
ghost use Rattle.writing.specs.Rooms.{fitted_bytes};
ghost use Rattle.machine.specs.Program.{program_prints};
ghost use Rattle.reporting.specs.Answers.{lines_answer};

use automata::image::{Image, read_image};
use automata::refusal::Refusal;
use blockers::room::BlockerRoom;
use checker::begin::alone;
use checker::record::Record;
use checker::run::run;
use checker::terms::Terms;
use reporting::lines;
use std::io;
use std::io::{ErrorKind, Read, Write};
use wordroom::WordRoom;

// The number of an image that was taken apart: 0 for one that holds an automaton.
fn number_of(read: &Result<Image<'_>, Refusal>) -> u64
    ensures { result ≡ image_number read.now }
{
    match read {
        Ok(_) => 0,
        Err(refusal) => u64::from(*refusal),
    }
}

// Both lines of the run on an image, in the program's rooms. 5,483 bytes are room enough.
fn report(image: &[u8], room: &mut [u8]) -> Result<usize, Refusal>
    ensures enough { 5483 ≤ length room.old → IsOk result }
    ensures bytes { lines_answer result room.new ≡ fitted_bytes 0 (program_prints image.now) room.old }
{
    let mut blockers = BlockerRoom {
        masks: &mut [0; 256],
        levels: &mut [0; 256],
        entered: &mut [0; 256],
    };
    let mut word = WordRoom {
        cases: &mut [0; 256],
        symbols: &mut [0; 256],
    };
    let read = read_image(image);
    let Ok(_image) = &read else {
        return lines(alone(number_of(&read)), blockers.masks, word.symbols, room);
    };
    let terms = Terms {
        hints: &[],
        allowance: 100000,
        edition: 1,
        way: 0,
    };
    let left = run(image, &mut blockers, &mut word, &terms);
    lines(Record::from(left), blockers.masks, word.symbols, room)
}

// Fills the bytes from the input, as far as it goes; answers how many were read. Those stand in front, and if there are fewer than there is room for, the input is
// at its end.
fn read_full<R: Read>(input: &mut R, bytes: &mut [u8]) -> io::Result<usize>
    ensures within { IfOk result (λ size. size ≤ length bytes.new) }
    ensures read { IfOk result (λ size. Consumes (R.remaining input.old) (R.remaining input.new) (take size bytes.new)) }
    ensures end { IfOk result (λ size. size < length bytes.new → IsAtEnd (R.remaining input.new)) }
{
    let mut size = 0;
    for _ in 0..u64::MAX {
        if size >= bytes.len() {
            return Ok(size);
        }
        match input.read(&mut bytes[size..]) {
            Ok(0) => return Ok(size),
            Ok(more) => size += more,
            Err(error) => {
                if error.kind() != ErrorKind::Interrupted {
                    return Err(error);
                }
            }
        }
    }
    Err(io::Error::from(ErrorKind::TimedOut))
}

fn main(rt: HostRuntime) -> io::Result<()> {
    // One byte more than the longest image has, so that a longer input is refused.
    let mut bytes = [0u8; 37397];
    let size = read_full(&mut rt.stdin(), &mut bytes)?;
    // Enough for every output: each number has at most 20 digits and a space, five stand on the first line and at most 256 on the second, and each line has a
    // newline.
    let mut room = [0u8; 5483];
    let Ok(length) = report(&bytes[..size], &mut room) else {
        unreachable!()
    };
    rt.stdout().write_all(&room[..length])
}
