// The library's functions for C and Rust, as include/afa.h declares them.
#![tactic(auto)]

ghost use Rattle.std.specs.Prelude.{◌≡◌};
ghost use Rattle.automata.specs.Answers.{read_image, image_number, head_after};
ghost use Rattle.automata.specs.WordTest.{word_test};
ghost use Rattle.machine.specs.Print.{print_run};
ghost use Rattle.machine.specs.Lending.{blockers_before, lent_before, lent_after};
ghost use Rattle.machine.specs.Why.{why};
ghost use Rattle.machine.specs.Runs.{run_of};
ghost use Rattle.machine.specs.Records.{begin_of, step_of};
ghost use Rattle.checker.specs.Stage.{terms_of};
ghost use Rattle.checker.specs.Calls.{record_as};
ghost use Rattle.exports.specs.Interface.{Wrote, Ran, Told, numbers_of, record_from, BeginGave, StepGave};

use blockers::Level;
use blockers::reasons::{Blockers, Reason};
use blockers::room::BlockerRoom;
use checker::record::{KeptLevel, Record};
use checker::terms::Terms;
use wordroom::WordRoom;

// 0, and n, k, m, I and F in `head`; or the refusing number, and `head` as it was.
#[unsafe(no_mangle)]
pub extern "C" fn afa_read(image: &[u8], head: &mut [u64; 5]) -> u64
    ensures number { result ≡ image_number (read_image image.now) }
    ensures values { head.new ≡ head_after head.old (read_image image.now) }
{
    match automata::image::read_image(image) {
        Err(refusal) => u64::from(refusal),
        Ok(read) => {
            let found = read.head();
            *head = [
                u64::from(found.states),
                u64::from(found.symbols),
                u64::from(found.rows),
                found.initial,
                found.finals,
            ];
            0
        }
    }
}

// 1 where the word is accepted, 0 where it is not; or the number under which the image or the word is refused.
#[unsafe(no_mangle)]
pub extern "C" fn afa_accepts(image: &[u8], word: &[u8]) -> u64
    ensures { result ≡ word_test image.now word.now }
{
    match automata::word::word_test(image, word) {
        Err(refusal) => u64::from(refusal),
        Ok(accepted) => u64::from(accepted),
    }
}

// The print of the word's run in `room`, from its first place on: 1 with the length of the print in `length`; or 0 where the word is not accepted, 35 where
// the room is too short, or the number under which the image or the word is refused, with 0 in `length` and the room as it was.
#[unsafe(no_mangle)]
pub extern "C" fn afa_print_run(
    image: &[u8],
    word: &[u8],
    room: &mut [u8],
    length: &mut [u64; 1],
) -> u64
    ensures { Wrote result length.new room.new (print_run image.now word.now room.old) }
{
    *length = [0];
    match printing::print::print_run(image, word, room) {
        Err(refusal) => u64::from(refusal),
        Ok(None) => 0,
        Ok(Some(written)) => {
            // as Rust, std has no `u64::from` of a usize
            *length = [written as u64];
            1
        }
    }
}

// The number of a run, with steps, level, blockers held and hints accepted in `counts`. A refused run leaves its tables as they were. C lends each table by itself;
// each of the three calls makes its own structs of them, since a struct that held both would lose the tables to the proof.
#[unsafe(no_mangle)]
pub extern "C" fn afa_run(
    image: &[u8],
    masks: &mut [u64],
    levels: &mut [u32],
    entered: &mut [u64],
    cases: &mut [u64],
    symbols: &mut [u8],
    hints: &[u64],
    allowance: u64,
    edition: u64,
    way: u64,
    counts: &mut [u64; 4],
) -> u64
    ensures { Ran result counts.new (lent_after masks.new levels.new entered.new cases.new symbols.new)
        (run_of image.now (lent_before masks.old levels.old entered.old cases.old symbols.old) (terms_of hints.now allowance edition way)) }
{
    let mut room = BlockerRoom {
        masks,
        levels,
        entered,
    };
    let mut word = WordRoom { cases, symbols };
    let terms = Terms {
        hints,
        allowance,
        edition,
        way,
    };
    let made = Record::from(checker::run::run(image, &mut room, &mut word, &terms));
    *counts = [made.steps, made.level.0, made.held, made.accepted];
    made.answer
}

// The eight numbers of a record, as C has them.
fn numbers_of(left: Record) -> [u64; 8]
    ensures { result ≡ numbers_of (record_as left) }
{
    [
        left.answer,
        left.steps,
        left.level.0,
        u64::from(left.opened),
        left.held,
        left.pending,
        left.blocks,
        left.accepted,
    ]
}

// The record of eight numbers. C sends any, so this is no `TryFrom`.
fn record_from(numbers: [u64; 8]) -> Record
    ensures { record_as result ≡ record_from numbers }
{
    Record {
        answer: numbers[0],
        steps: numbers[1],
        level: KeptLevel(numbers[2]),
        opened: numbers[3] != 0,
        held: numbers[4],
        pending: numbers[5],
        blocks: numbers[6],
        accepted: numbers[7],
    }
}

// Begins a run, which afa_step then makes step by step: the record's answer, with the record in `numbers`. A refused begin leaves its tables as they were, and
// gives its number and seven zeros.
#[unsafe(no_mangle)]
pub extern "C" fn afa_begin(
    image: &[u8],
    masks: &mut [u64],
    levels: &mut [u32],
    entered: &mut [u64],
    cases: &mut [u64],
    symbols: &mut [u8],
    hints: &[u64],
    edition: u64,
    way: u64,
    numbers: &mut [u64; 8],
) -> u64
    ensures { BeginGave result numbers.new (lent_after masks.new levels.new entered.new cases.new symbols.new)
        (begin_of image.now (lent_before masks.old levels.old entered.old cases.old symbols.old) (terms_of hints.now 0 edition way)) }
{
    let mut room = BlockerRoom {
        masks,
        levels,
        entered,
    };
    let mut word = WordRoom { cases, symbols };
    let terms = Terms {
        hints,
        allowance: 0,
        edition,
        way,
    };
    let left = Record::from(checker::begin::begin(image, &mut room, &mut word, &terms));
    *numbers = numbers_of(left);
    left.answer
}

// Makes one step of the run whose record is in `numbers`: the record's answer then, or the number that refuses the step, with record and tables as they were.
// The numbers of a finished record stay too, whatever number stood for open.
#[unsafe(no_mangle)]
pub extern "C" fn afa_step(
    image: &[u8],
    masks: &mut [u64],
    levels: &mut [u32],
    entered: &mut [u64],
    cases: &mut [u64],
    symbols: &mut [u8],
    hints: &[u64],
    allowance: u64,
    edition: u64,
    way: u64,
    numbers: &mut [u64; 8],
) -> u64
    ensures { StepGave numbers.old result numbers.new (lent_after masks.new levels.new entered.new cases.new symbols.new)
        (step_of image.now (terms_of hints.now allowance edition way)
        (record { tables = lent_before masks.old levels.old entered.old cases.old symbols.old; run = record_from numbers.old })) }
{
    let mut room = BlockerRoom {
        masks,
        levels,
        entered,
    };
    let mut word = WordRoom { cases, symbols };
    let terms = Terms {
        hints,
        allowance,
        edition,
        way,
    };
    let before = *numbers;
    let mut kept = record_from(before);
    match checker::step::step_on(image, &mut room, &mut word, &terms, &mut kept) {
        Err(refusal) => u64::from(refusal),
        Ok(answer) => {
            if before[0] == 6 {
                *numbers = numbers_of(kept);
            }
            u64::from(answer)
        }
    }
}

// Why the case is blocked at the level: 1 with the place and the level of the first covering blocker in `found`, or 2 with the lowest initial state absent
// and 0; or 0 with two zeros where it is not blocked there. No blocker's level is above 2^32 - 1.
#[unsafe(no_mangle)]
pub extern "C" fn afa_why(
    initial: u64,
    masks: &[u64],
    levels: &[u32],
    level: u64,
    case: u64,
    found: &mut [u64; 2],
) -> u64
    ensures { Told result found.new (why initial (blockers_before masks.now levels.now) level case) }
{
    *found = [0, 0];
    let Ok(number) = u32::try_from(level) else {
        return 0;
    };
    let blockers = Blockers { masks, levels };
    match blockers.why(initial, Level(number), case) {
        None => 0,
        Some(Reason::ByBlocker(place, its)) => {
            // as Rust, std has no `u64::from` of a usize
            *found = [place as u64, u64::from(its.0)];
            1
        }
        Some(Reason::ByStart(q)) => {
            *found = [u64::from(q.0), 0];
            2
        }
    }
}
