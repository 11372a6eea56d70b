// The two lines of a run, as 01's program prints them, in a lent room. Their bytes are counted first, and written only if they fit.
#![tactic(auto)]

ghost use Rattle.std.specs.Prelude.{◌≡◌, ◌+◌, ◌*◌, ◌^◌, ◌≤◌, ◌<◌, max, length, take, IsOk};
ghost use Rattle.writing.specs.Lines.{numbers_line, text_of};
ghost use Rattle.writing.specs.Rooms.{fitted_bytes};
ghost use Rattle.writing.specs.Putting.{Puts};
ghost use Rattle.machine.specs.Runs.{five_numbers};
ghost use Rattle.machine.specs.Program.{second_line, two_lines};
ghost use Rattle.checker.specs.Calls.{record_as};
ghost use Rattle.reporting.specs.Answers.{lines_answer};

use automata::refusal::Refusal;
use checker::record::Record;
use writing::put_line;

// The first places of a table, which is taken as it is where it has fewer.
fn first<T>(table: &[T], count: u64) -> &[T]
    ensures { result.now ≡ take count table.now }
{
    // as Rust, std has no `From` between u64 and usize
    &table[..count.min(table.len() as u64) as usize]
}

// Line 1: the five numbers.
fn put_first(room: &mut [u8], limit: usize, run: Record) -> usize
    requires { limit < 2 ^ 63 }
    ensures near { result ≤ 106 }
    ensures bytes { Puts (numbers_line (five_numbers (record_as run))) 0 limit result room.old room.new }
{
    put_line(
        room,
        0,
        limit,
        &[run.answer, run.steps, run.level.0, run.held, run.accepted],
    )
}

// Line 2, from a place on: on 0 the masks that are held, on 1 as many symbols as the level says, else none; a table that has fewer is taken as it is. The answer is
// a number here, since `lines` says what it prints of every record.
fn put_second(
    room: &mut [u8],
    start: usize,
    limit: usize,
    run: Record,
    masks: &[u64],
    symbols: &[u8],
) -> usize
    requires { limit < 2 ^ 63 }
    ensures near { result ≤ start + 21 * max (length masks.now) (length symbols.now) + 1 }
    ensures bytes { Puts (numbers_line (second_line run.answer (take run.held masks.now) (take run.level.0 symbols.now)))
        start limit result room.old room.new }
{
    match run.answer {
        0 => put_line(room, start, limit, first(masks, run.held)),
        1 => put_line(room, start, limit, first(symbols, run.level.0)),
        _ => put_line::<u64>(room, start, limit, &[]),
    }
}

// Both lines; answers the place behind them. It stops once the limit is passed.
fn put_lines(room: &mut [u8], limit: usize, run: Record, masks: &[u64], symbols: &[u8]) -> usize
    requires { limit < 2 ^ 63 }
    ensures near { result ≤ 107 + 21 * max (length masks.now) (length symbols.now) }
    ensures bytes { Puts (text_of (two_lines (record_as run) masks.now symbols.now))
        0 limit result room.old room.new }
{
    let start = put_first(room, limit, run);
    put_second(room, start, limit, run, masks, symbols)
}

// Both lines of what a run leaves: that the room is too short; else their length, with the bytes in the room's first places and the others as they were. A room
// of 107 bytes and 21 for each place of the longer table is long enough.
pub fn lines(run: Record, masks: &[u64], symbols: &[u8], room: &mut [u8]) -> Result<usize, Refusal>
    ensures enough { 107 + 21 * max (length masks.now) (length symbols.now) ≤ length room.old → IsOk result }
    ensures bytes { lines_answer result room.new
        ≡ fitted_bytes 0 (text_of (two_lines (record_as run) masks.now symbols.now)) room.old }
{
    // by hand, as in `printing`: the contract of one function over a closure would say both calls again, with each room, and how near the first ends
    let length = put_lines(&mut [], room.len(), run, masks, symbols);
    if room.len() < length {
        return Err(Refusal::ShortRoom);
    }
    put_lines(room, room.len(), run, masks, symbols);
    Ok(length)
}
