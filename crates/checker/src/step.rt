// One step, for every input: all that is lent is checked again, and the record belongs to the caller.
ghost use Rattle.std.specs.Prelude.{◌≡◌};
ghost use Rattle.machine.specs.Records.{step_of};
ghost use Rattle.blockers.specs.Tables.{SameRoom};
ghost use Rattle.wordroom.specs.Tables.{SameWord};
ghost use Rattle.checker.specs.Stage.{terms_in};
ghost use Rattle.checker.specs.Calls.{stage_as, stepped_as, called_as};

use crate::record::{Answer, Record, Run};
use crate::steps::working_step;
use crate::terms::{Terms, check_run};
use automata::refusal::Refusal;
use blockers::room::BlockerRoom;
use wordroom::WordRoom;

// What a step gives back: what it answers, and the record as it then is.
#[derive(Clone, Copy)]
pub struct Called {
    pub answer: Result<Answer, Refusal>,
    pub left: Record,
}

// The run after the step, or the first check that applies. A finished run stays as it is.
fn step_read(
    image: &[u8],
    room: &mut BlockerRoom<'_>,
    word: &mut WordRoom<'_>,
    terms: &Terms<'_>,
    before: Record,
) -> Result<Run, Refusal>
    ensures stepped { stepped_as room.new word.new before result ≡ step_of image.now (terms_in terms.now) (stage_as room.old word.old before) }
    ensures same_room { SameRoom room.old room.new }
    ensures same_word { SameWord word.old word.new }
{
    let (image, given) = check_run(image, room, word, terms)?;
    let run = before.to_run(room.masks.len(), word.cases.len())?;
    if run.answer == Answer::Working {
        return Ok(working_step(&image, room, word, &given, run));
    }
    Ok(run)
}

// One step: the first check that applies, with record and tables as they were; a finished record's answer again; else one step of the machine on the places in
// use, and the answer that the record then has.
pub fn step(
    image: &[u8],
    room: &mut BlockerRoom<'_>,
    word: &mut WordRoom<'_>,
    terms: &Terms<'_>,
    before: Record,
) -> Called
    ensures stepped { called_as room.new word.new result.answer result.left ≡ step_of image.now (terms_in terms.now) (stage_as room.old word.old before) }
    ensures same_room { SameRoom room.old room.new }
    ensures same_word { SameWord word.old word.new }
{
    match step_read(image, room, word, terms, before) {
        Ok(run) => Called {
            answer: Ok(run.answer),
            left: Record::from(run),
        },
        Err(refusal) => Called {
            answer: Err(refusal),
            left: before,
        },
    }
}

// The same on a record that is lent: it carries the new state afterwards.
pub fn step_on(
    image: &[u8],
    room: &mut BlockerRoom<'_>,
    word: &mut WordRoom<'_>,
    terms: &Terms<'_>,
    kept: &mut Record,
) -> Result<Answer, Refusal>
    ensures stepped { called_as room.new word.new result kept.new ≡ step_of image.now (terms_in terms.now) (stage_as room.old word.old kept.old) }
    ensures same_room { SameRoom room.old room.new }
    ensures same_word { SameWord word.old word.new }
{
    let called = step(image, room, word, terms, *kept);
    *kept = called.left;
    called.answer
}
