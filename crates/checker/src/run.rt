// A whole run, for every input: begin, then steps until it has ended.
ghost use Rattle.std.specs.Prelude.{◌≡◌};
ghost use Rattle.machine.specs.Runs.{run_of};
ghost use Rattle.blockers.specs.Tables.{SameRoom};
ghost use Rattle.wordroom.specs.Tables.{SameWord};
ghost use Rattle.checker.specs.Stage.{lent_in, terms_in, stage_left};

use crate::begin::{clear_rooms, start};
use crate::record::{Answer, Run};
use crate::steps::working_step;
use crate::terms::{Terms, check_run};
use automata::refusal::Refusal;
use blockers::room::BlockerRoom;
use wordroom::WordRoom;

// A run: refused by the first check that applies, with every table as it was; else the machine's run, in the lent rooms.
pub fn run(
    image: &[u8],
    room: &mut BlockerRoom<'_>,
    word: &mut WordRoom<'_>,
    terms: &Terms<'_>,
) -> Result<Run, Refusal>
    ensures ran { stage_left room.new word.new result ≡ run_of image.now (lent_in room.old word.old) (terms_in terms.now) }
    ensures same_room { SameRoom room.old room.new }
    ensures same_word { SameWord word.old word.new }
{
    let (image, given) = check_run(image, room, word, terms)?;
    clear_rooms(room, word);
    let mut run = start(&image, given.edition);
    while run.answer == Answer::Working {
        run = working_step(&image, room, word, &given, run);
    }
    Ok(run)
}
