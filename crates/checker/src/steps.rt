// The steps of a run: open, extend, block and close, in 01's order, and the step that is one of them.
ghost use Rattle.std.specs.Prelude.{◌≡◌, false, [], ◌∷◌, ◌+◌, ◌-◌, ◌≤◌, ◌<◌, ltb, length};
ghost use Rattle.masks.specs.Sets.{subset as is_subset};
ghost use Rattle.automata.specs.Image.{initial_of, final_of};
ghost use Rattle.machine.specs.Machine.{final_pending, pending_after, block_step, step as machine_step};
ghost use Rattle.machine.specs.Lent.{blockers_from, unstamped_room, pending_first, with_word};
ghost use Rattle.machine.specs.Runs.{system_of, given_of};
ghost use Rattle.machine.specs.Records.{working_step};
ghost use Rattle.blockers.specs.Room.{Holds, HoldsRoom};
ghost use Rattle.blockers.specs.Tables.{room_in, held_in, SameRoom};
ghost use Rattle.choices.specs.Found.{choice_of};
ghost use Rattle.wordroom.specs.Room.{Holds as HoldsWord};
ghost use Rattle.wordroom.specs.Tables.{word_in, SameWord};
ghost use Rattle.checker.specs.Stage.{number_of_answer, record_in, terms_given, stage_in, made_by, block_of, Ready, left_of, Leaves, Opened, Unpends, Extended, ClosesLevel, Pends, Countable};

use crate::record::{Answer, Run};
use crate::terms::Given;
use automata::image::{Image, Symbol};
use blockers::Level;
use blockers::reasons::Blockers;
use blockers::room::BlockerRoom;
use choices::Choice;
use passing::Pending;
use wordroom::WordRoom;

// The run ends without a verdict, by what it lacks: nothing stays pending.
fn stop(word: &mut WordRoom<'_>, run: Run, answer: Answer) -> Run
    requires { HoldsWord run.pending (word_in word.old) }
    ensures left { Leaves (left_of (record_in run) (number_of_answer answer) 0) (with_word run.pending [] (word_in word.old)) (record_in result) (word_in word.new) }
    ensures same { SameWord word.old word.new }
{
    word.clear_first(run.pending);
    run.left(answer, 0)
}

// With nothing pending: F becomes pending if it is not blocked at the level. Answers how many cases are pending then.
fn pend_final(
    image: &Image<'_>,
    blockers: &Blockers<'_>,
    level: Level,
    word: &mut WordRoom<'_>,
) -> usize
    requires { HoldsWord 1 (word_in word.old) }
    ensures pends { Pends 0 (final_pending (initial_of image.now) (final_of image.now ∷ []) (held_in blockers.now) level.0) result (word_in word.old) (word_in word.new) }
    ensures same { SameWord word.old word.new }
{
    let head = image.head();
    if blockers.block(head.initial, level, head.finals) {
        return 0;
    }
    word.push(0, head.finals, Symbol(0));
    1
}

// With `rest` cases pending, they stay; with none, F may become pending again. Answers how many cases are pending then.
fn pend_after(
    image: &Image<'_>,
    blockers: &Blockers<'_>,
    level: Level,
    word: &mut WordRoom<'_>,
    rest: usize,
) -> usize
    requires { HoldsWord (rest + 1) (word_in word.old) }
    ensures pends { Pends rest (pending_after (initial_of image.now) (final_of image.now ∷ []) (held_in blockers.now) level.0
        (pending_first (word_in word.old) rest)) result (word_in word.old) (word_in word.new) }
    ensures same { SameWord word.old word.new }
{
    if rest == 0 {
        return pend_final(image, blockers, level, word);
    }
    rest
}

// Open: the level grows by 1 and is open.
fn open_level(image: &Image<'_>, room: &BlockerRoom<'_>, word: &mut WordRoom<'_>, run: Run) -> Run
    requires { Holds run.held room.now.masks.now room.now.levels.now × (length word.old.cases.now ≡ length word.old.symbols.now)
        × (length word.old.cases.now ≤ 65536) × (run.pending ≡ 0) × (run.steps < 18446744073709551615) }
    ensures opened { Opened (ltb run.level.0 (length word.old.cases.now)) (record_in run)
        (final_pending (initial_of image.now) (final_of image.now ∷ []) (blockers_from (unstamped_room room.now.masks.now room.now.levels.now) run.held 0) (run.level.0 + 1))
        (word_in word.old) (record_in result) (word_in word.new) }
    ensures same { SameWord word.old word.new }
{
    // as Rust, std has no `usize::from` of 32 bits
    if word.cases.len() <= run.level.0 as usize {
        return stop(word, run, Answer::WordRoomFull);
    }
    let next = run.level.above();
    let pending = pend_final(image, &room.held(run.held), next, word);
    Run {
        level: next,
        opened: true,
        ..run.counted(Answer::Working, pending)
    }
}

// Extend by the symbol whose backward set P of the lowest pending case was found: the word, if P contains I; else P becomes pending.
fn extend(image: &Image<'_>, word: &mut WordRoom<'_>, run: Run, symbol: Symbol, case: u64) -> Run
    requires { HoldsWord run.pending (word_in word.old) × (1 ≤ run.pending) × (run.steps < 18446744073709551615)
        × (is_subset (initial_of image.now) case ≡ false → HoldsWord (run.pending + 1) (word_in word.old)) }
    ensures extended { Extended (is_subset (initial_of image.now) case) (record_in run) (record { case = case; symbol = symbol.0 }) (pending_first (word_in word.old) run.pending)
        (word_in word.old) (record_in result) (word_in word.new) }
    ensures same { SameWord word.old word.new }
{
    if masks::subset(image.head().initial, case) {
        word.write_word(run.pending, symbol);
        return run.counted(Answer::Word, 0);
    }
    word.push(run.pending, case, symbol);
    run.counted(Answer::Working, run.pending + 1)
}

// A blocker has entered for the pending case of the lowest level, and `held` are held: that case is no longer pending.
fn unpend(
    image: &Image<'_>,
    room: &BlockerRoom<'_>,
    word: &mut WordRoom<'_>,
    run: Run,
    held: usize,
    hinted: bool,
) -> Run
    requires { Holds held room.now.masks.now room.now.levels.now × HoldsWord run.pending (word_in word.old) × (1 ≤ run.pending) × Countable (record_in run) }
    ensures unpends { Unpends (record_in run) held hinted
        (pending_after (initial_of image.now) (final_of image.now ∷ []) (blockers_from (unstamped_room room.now.masks.now room.now.levels.now) held 0) run.level.0
        (pending_first (word_in word.old) (run.pending - 1)))
        (word_in word.old) (record_in result) (word_in word.new) }
    ensures same { SameWord word.old word.new }
{
    word.pop(run.pending);
    let pending = pend_after(image, &room.held(held), run.level, word, run.pending - 1);
    run.blocked(held, pending, hinted)
}

// The chosen set enters one level above `below`, if there is a place for it, and the pending case of the lowest level is no longer pending.
fn enter_chosen(
    image: &Image<'_>,
    room: &mut BlockerRoom<'_>,
    word: &mut WordRoom<'_>,
    run: Run,
    below: Level,
    choice: Choice,
) -> Run
    requires { Ready (stage_in room.old word.old run) × (1 ≤ run.pending) × (below.0 < 65536) × Countable (record_in run) }
    ensures entered { stage_in room.new word.new result
        ≡ made_by (λ c. block_step (initial_of image.now) (final_of image.now ∷ []) c (pending_first (word_in word.old) (run.pending - 1)) below.0 (choice_of choice))
        (stage_in room.old word.old run) }
    ensures same_room { SameRoom room.old room.new }
    ensures same_word { SameWord word.old word.new }
{
    let Some(held) = room.enter(run.held, choice.mask, below.above(), run.steps + 1) else {
        return stop(word, run, Answer::BlockerRoomFull);
    };
    unpend(image, room, word, run, held, choice.hinted)
}

// Block the pending case x of the lowest level, which is one above `below`.
fn block(
    image: &Image<'_>,
    room: &mut BlockerRoom<'_>,
    word: &mut WordRoom<'_>,
    given: &Given<'_>,
    run: Run,
    below: Level,
    x: u64,
) -> Run
    requires { Ready (stage_in room.old word.old run) × (1 ≤ run.pending) × (below.0 < 65536) × (run.steps < 18446744073709551615) }
    ensures blocked { stage_in room.new word.new result
        ≡ made_by (block_of image.now (terms_given given.now) (pending_first (word_in word.old) (run.pending - 1)) below.0 x)
        (stage_in room.old word.old run) }
    ensures same_room { SameRoom room.old room.new }
    ensures same_word { SameWord word.old word.new }
{
    let blockers = room.held(run.held);
    let pending = Pending {
        // lent again, since the blockers are not lent for as long
        image: &*image,
        blockers: &blockers,
        below,
        x,
    };
    let choice = choices::choose_set(&pending, given.hints, run.blocks, u64::from(given.way));
    enter_chosen(image, room, word, run, below, choice)
}

// Extend the pending case of the lowest level by the first symbol that qualifies; block it if none does.
fn work(
    image: &Image<'_>,
    room: &mut BlockerRoom<'_>,
    word: &mut WordRoom<'_>,
    given: &Given<'_>,
    run: Run,
) -> Run
    requires { Ready (stage_in room.old word.old run) × (1 ≤ run.pending) × (run.steps < 18446744073709551615) }
    ensures worked { stage_in room.new word.new result
        ≡ made_by (machine_step (system_of image.now) (given_of image.now (terms_given given.now)))
        (stage_in room.old word.old run) }
    ensures same_room { SameRoom room.old room.new }
    ensures same_word { SameWord word.old word.new }
{
    let x = word.cases[run.pending - 1];
    // what is pending is no more than the level
    let below = Level(run.level.0 - run.pending as u32);
    let blockers = room.held(run.held);
    let pending = Pending {
        // lent again, since the blockers are not lent for as long
        image: &*image,
        blockers: &blockers,
        below,
        x,
    };
    let Some((symbol, case)) = choices::first_symbol(&pending) else {
        return block(image, room, word, given, run, below, x);
    };
    extend(image, word, run, symbol, case)
}

// Close: blockers rise, and where a level then holds none the run ends with the frame. Nothing is pending.
fn close_level(image: &Image<'_>, room: &mut BlockerRoom<'_>, run: Run) -> Run
    requires { HoldsRoom run.held (room_in room.old) × (run.level.0 < 4294967295) × (run.steps < 18446744073709551615) }
    ensures closed { ClosesLevel (system_of image.now) (record_in run) (record_in result) (room_in room.old) (room_in room.new) }
    ensures same { SameRoom room.old room.new }
{
    let closed = closing::close(image, room, run.held, run.level);
    let answer = if closed.empty {
        Answer::Empty
    } else {
        Answer::Working
    };
    Run {
        opened: false,
        held: closed.held,
        ..run.counted(answer, 0)
    }
}

// One step of a run that works: the allowance is tested, then the room that the step needs. A pending case is worked on first; with none, an open level
// is closed; else a level is opened.
pub(crate) fn working_step(
    image: &Image<'_>,
    room: &mut BlockerRoom<'_>,
    word: &mut WordRoom<'_>,
    given: &Given<'_>,
    run: Run,
) -> Run
    requires { Ready (stage_in room.old word.old run) }
    ensures stepped { stage_in room.new word.new result
        ≡ working_step image.now (given_of image.now (terms_given given.now)) (stage_in room.old word.old run) }
    ensures same_room { SameRoom room.old room.new }
    ensures same_word { SameWord word.old word.new }
{
    if given.allowance <= run.steps {
        return stop(word, run, Answer::StepsUsedUp);
    }
    if 0 < run.pending {
        return work(image, room, word, given, run);
    }
    if run.opened {
        return close_level(image, room, run);
    }
    open_level(image, room, word, run)
}
