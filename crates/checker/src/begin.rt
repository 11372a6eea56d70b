// Begin, for every input: all that is lent is checked, and the start is made in tables that hold 0.
ghost use Rattle.std.specs.Prelude.{◌≡◌, [], ◌∷◌};
ghost use Rattle.automata.specs.Image.{initial_of, final_of};
ghost use Rattle.machine.specs.Machine.{start as machine_start};
ghost use Rattle.machine.specs.Lent.{zeroed};
ghost use Rattle.machine.specs.Runs.{record_of, alone_record};
ghost use Rattle.machine.specs.Records.{answering, begin_of};
ghost use Rattle.blockers.specs.Tables.{SameRoom};
ghost use Rattle.wordroom.specs.Tables.{SameWord};
ghost use Rattle.checker.specs.Stage.{record_in, lent_in, terms_in, number_of_edition, stage_left};
ghost use Rattle.checker.specs.Calls.{record_as};

use crate::record::{Answer, KeptLevel, Record, Run};
use crate::terms::{Edition, Terms, check_run};
use automata::image::Image;
use automata::refusal::Refusal;
use blockers::room::BlockerRoom;
use wordroom::WordRoom;

// A record of this number alone, with 0 in its other fields.
pub fn alone(number: u64) -> Record
    ensures { record_as result ≡ alone_record number }
{
    Record {
        answer: number,
        steps: 0,
        level: KeptLevel(0),
        opened: false,
        held: 0,
        pending: 0,
        blocks: 0,
        accepted: 0,
    }
}

// The start: where I is a subset of F, 1 with the empty word, in edition 2 5; else a run that works.
pub(crate) fn start(image: &Image<'_>, edition: Edition) -> Run
    ensures { record_in result ≡ record_of (machine_start (initial_of image.now) (final_of image.now ∷ []) (number_of_edition edition)) }
{
    let head = image.head();
    if !masks::subset(head.initial, head.finals) {
        return Run::begun(Answer::Working);
    }
    match edition {
        Edition::First => Run::begun(Answer::Word),
        Edition::Second => Run::begun(Answer::StartsFinal),
    }
}

// Every place of both rooms becomes 0.
pub(crate) fn clear_rooms(room: &mut BlockerRoom<'_>, word: &mut WordRoom<'_>)
    ensures cleared { lent_in room.new word.new ≡ zeroed (lent_in room.old word.old) }
    ensures same_room { SameRoom room.old room.new }
    ensures same_word { SameWord word.old word.new }
{
    room.masks.fill(0);
    room.levels.fill(0);
    room.entered.fill(0);
    word.cases.fill(0);
    word.symbols.fill(0);
}

// Begin: the first check that applies, with every table as it was; else the start, in tables that hold 0.
pub fn begin(
    image: &[u8],
    room: &mut BlockerRoom<'_>,
    word: &mut WordRoom<'_>,
    terms: &Terms<'_>,
) -> Result<Run, Refusal>
    ensures begun { answering (stage_left room.new word.new result) ≡ begin_of image.now (lent_in room.old word.old) (terms_in terms.now) }
    ensures same_room { SameRoom room.old room.new }
    ensures same_word { SameWord word.old word.new }
{
    let (image, given) = check_run(image, room, word, terms)?;
    clear_rooms(room, word);
    Ok(start(&image, given.edition))
}
