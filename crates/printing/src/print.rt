// The print of a word's run: a line with I, then for each event one with the symbol and the case reached. Its bytes are counted first, and written only if
// they fit.
ghost use Rattle.std.specs.Prelude.{◌≡◌, [], ◌∷◌, ◌^◌, ◌≤◌, ◌<◌, length};
ghost use Rattle.automata.specs.Automaton.{automaton_of};
ghost use Rattle.automata.specs.WordTest.{WordOf};
ghost use Rattle.automata.specs.Picks.{events_over};
ghost use Rattle.writing.specs.Rooms.{answer_of, fitted_bytes};
ghost use Rattle.writing.specs.Putting.{Puts};
ghost use Rattle.machine.specs.Print.{print_of, print_run};
ghost use Rattle.printing.specs.Answers.{print_answer};
ghost use Rattle.printing.specs.Steps.{Ready};
ghost use Rattle.printing.specs.Putting.{events_in, event_lines, PutsEvents};

use crate::steps::{accept, fill, run_through, step_through};
use automata::image::{Image, Symbol, read_image};
use automata::refusal::Refusal;
use automata::word::{symbols_below, taken_back};
use writing::put_line;

// What was put so far: the place behind it, and the case that its events reach.
#[derive(Clone, Copy)]
struct Put {
    end: usize,
    case: u64,
}

// The lines of the word's events from a place on, with their cases in a table; answers the place behind them. It stops once the limit is passed.
fn put_lines(word: &[u8], table: &[u64], room: &mut [u8], start: usize, limit: usize) -> usize
    requires { (length word.now ≤ length table.now) × (limit < 2 ^ 63) }
    ensures { Puts (event_lines (events_in word.now table.now)) start limit result room.old room.new }
{
    let mut end = start;
    for (i, s) in word.iter().enumerate() {
        let symbol = Symbol(*s);
        if limit < end {
            return end;
        }
        end = put_line(room, end, limit, &[u64::from(symbol.0), table[i]]);
    }
    end
}

// The lines of the events of a word of any length, behind what was put, from the case that it reaches into z. A word that is too long for the table goes half
// by half.
fn put_events(
    image: &Image<'_>,
    word: &[u8],
    z: u64,
    table: &mut [u64],
    room: &mut [u8],
    put: Put,
    limit: usize,
) -> Put
    requires { WordOf image.now word.now × (0 < length table.old) × (limit < 2 ^ 63) }
    ensures { PutsEvents (events_over (automaton_of image.now) z put.case word.now)
        put.case put.end limit result.end result.case room.old room.new }
{
    if word.len() <= table.len() {
        fill(image, word, z, table);
        let case = step_through(image, word, put.case, table);
        let end = put_lines(word, table, room, put.end, limit);
        return Put { end, case };
    }
    let (front, back) = word.split_at(word.len() / 2);
    let middle = taken_back(image, back, z);
    let first = put_events(image, front, middle, table, room, put, limit);
    put_events(image, back, z, table, room, first, limit)
}

// The whole print, with the cases of the word's run in the table if it is long enough; they stay there. It stops once the limit is passed.
fn put_run(
    image: &Image<'_>,
    word: &[u8],
    table: &mut [u64],
    room: &mut [u8],
    limit: usize,
) -> usize
    requires { WordOf image.now word.now × (0 < length table.old) × (limit < 2 ^ 63) × Ready image.now word.now table.old }
    ensures bytes { Puts (print_of (automaton_of image.now) word.now) 0 limit result room.old room.new }
    ensures ready { Ready image.now word.now table.new }
{
    let head = image.head();
    let start = put_line(room, 0, limit, &[head.initial]);
    if word.len() <= table.len() {
        return put_lines(word, table, room, start, limit);
    }
    let put = Put {
        end: start,
        case: head.initial,
    };
    put_events(image, word, head.finals, table, room, put, limit).end
}

// The print of an accepted word: its length, unless the room is too short.
fn print_accepted(
    image: &Image<'_>,
    word: &[u8],
    table: &mut [u64],
    room: &mut [u8],
) -> Result<Option<usize>, Refusal>
    requires { WordOf image.now word.now × (0 < length table.old) × Ready image.now word.now table.old }
    ensures { print_answer result room.new ≡ fitted_bytes 1 (print_of (automaton_of image.now) word.now) room.old }
{
    // by hand, as in `reporting`: the contract of one function over a closure would say both calls again, with each room, and the table between them
    let length = put_run(image, word, table, &mut [], room.len());
    if room.len() < length {
        return Err(Refusal::ShortRoom);
    }
    put_run(image, word, table, room, room.len());
    Ok(Some(length))
}

// The print of a word of an automaton's symbols: none where it is not accepted. The table has as many places as a word room at most, so that of a word that a
// run has found each set and each case is worked out once.
fn print_known(image: &Image<'_>, word: &[u8], room: &mut [u8]) -> Result<Option<usize>, Refusal>
    requires { WordOf image.now word.now }
    ensures { print_answer result room.new ≡ print_run image.now word.now room.old }
{
    let mut table = [0u64; 65536];
    if !accept(image, word, &mut table) {
        return Ok(None);
    }
    run_through(image, word, &mut table);
    print_accepted(image, word, &mut table, room)
}

// The print of the word's run: the image's refusal; or that a symbol is k or above; nothing where the word is not accepted; that the room is too short; else
// the length, with the bytes in the room's first places and the others as they were. Nothing is written on another answer.
pub fn print_run(image: &[u8], word: &[u8], room: &mut [u8]) -> Result<Option<usize>, Refusal>
    ensures { print_answer result room.new ≡ print_run image.now word.now room.old }
{
    let image = read_image(image)?;
    let head = image.head();
    if !symbols_below(word, head.symbols) {
        return Err(Refusal::UnknownSymbol);
    }
    print_known(&image, word, room)
}
