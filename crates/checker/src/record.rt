// What a run carries from one step to the next, inside a call and between calls; the tables are lent beside it.
ghost use Rattle.std.specs.Prelude.{◌≡◌, ◌≤◌, ◌<◌, IfOk};
ghost use Rattle.automata.specs.Image.{check};
ghost use Rattle.machine.specs.Runs.{alone_record};
ghost use Rattle.machine.specs.Records.{broken};
ghost use Rattle.checker.specs.Stage.{number_of_answer, record_in, left_of, counted_of, blocked_of, Countable};
ghost use Rattle.checker.specs.Calls.{record_as, number_checked};

use crate::begin::alone;
use automata::refusal::Refusal;
use blockers::Level;

// How a run stands: how it ended, or that it works on.
#[derive(Clone, Copy, PartialEq, Eq)]
pub enum Answer {
    Empty = 0,
    Word = 1,
    StepsUsedUp = 2,
    BlockerRoomFull = 3,
    WordRoomFull = 4,
    StartsFinal = 5,
    Working = 6,
}

impl From<Answer> for u64 {
    ghost use Rattle.std.specs.Prelude.{◌≡◌};
    ghost use Rattle.checker.specs.Stage.{number_of_answer};

    ghost from_gives = { λ answer number. number ≡ number_of_answer answer };

    fn from(answer: Answer) -> u64 {
        // the number that stands beside the variant
        answer as u64
    }
}

impl TryFrom<u64> for Answer {
    type Error = Refusal;

    ghost use Rattle.checker.specs.Calls.{AnswerOf};

    ghost try_from_gives = { AnswerOf };

    fn try_from(number: u64) -> Result<Self, Refusal> {
        match number {
            0 => Ok(Answer::Empty),
            1 => Ok(Answer::Word),
            2 => Ok(Answer::StepsUsedUp),
            3 => Ok(Answer::BlockerRoomFull),
            4 => Ok(Answer::WordRoomFull),
            5 => Ok(Answer::StartsFinal),
            6 => Ok(Answer::Working),
            _ => Err(Refusal::BrokenRecord),
        }
    }
}

// Of the blocker room the first `held` places are in use, of the word room the first `pending`. `blocks` counts the blocks made, `accepted` those that took a
// hint.
#[derive(Clone, Copy)]
pub struct Run {
    pub answer: Answer,
    pub steps: u64,
    pub level: Level,
    pub opened: bool,
    pub held: usize,
    pub pending: usize,
    pub blocks: u64,
    pub accepted: u64,
}

impl Run {
    // A run that has made no step: this answer, and 0 in the other fields.
    pub(crate) fn begun(answer: Answer) -> Run
        ensures { record_in result ≡ alone_record (number_of_answer answer) }
    {
        Run {
            answer,
            steps: 0,
            level: Level(0),
            opened: false,
            held: 0,
            pending: 0,
            blocks: 0,
            accepted: 0,
        }
    }

    // The run with this answer and so many cases pending.
    pub(crate) fn left(self, answer: Answer, pending: usize) -> Run
        ensures { record_in result ≡ left_of (record_in self) (number_of_answer answer) pending }
    {
        Run {
            answer,
            pending,
            ..self
        }
    }

    // The same after one step more.
    pub(crate) fn counted(self, answer: Answer, pending: usize) -> Run
        requires { self.steps < 18446744073709551615 }
        ensures { record_in result ≡ counted_of (record_in self) (number_of_answer answer) pending }
    {
        Run {
            answer,
            steps: self.steps + 1,
            pending,
            ..self
        }
    }

    // The run after a block that left `held` blockers and so many cases pending, and took a hint or not.
    pub(crate) fn blocked(self, held: usize, pending: usize, hinted: bool) -> Run
        requires { Countable (record_in self) }
        ensures { record_in result ≡ blocked_of (record_in self) held pending hinted }
    {
        Run {
            held,
            blocks: self.blocks + 1,
            accepted: self.accepted + u64::from(hinted),
            ..self.counted(Answer::Working, pending)
        }
    }
}

// A level as the owner of a record keeps it, which may be any number.
#[derive(Clone, Copy)]
pub struct KeptLevel(pub u64);

// The run's record between two calls. It belongs to the caller, so each number may be any.
#[derive(Clone, Copy)]
pub struct Record {
    pub answer: u64,
    pub steps: u64,
    pub level: KeptLevel,
    pub opened: bool,
    pub held: u64,
    pub pending: u64,
    pub blocks: u64,
    pub accepted: u64,
}

impl From<Run> for Record {
    ghost use Rattle.std.specs.Prelude.{◌≡◌};
    ghost use Rattle.checker.specs.Stage.{record_in};
    ghost use Rattle.checker.specs.Calls.{record_as};

    ghost from_gives = { λ run kept. record_as kept ≡ record_in run };

    fn from(run: Run) -> Record {
        Record {
            answer: u64::from(run.answer),
            steps: run.steps,
            level: KeptLevel(u64::from(run.level.0)),
            opened: run.opened,
            // as Rust, std has no `From` between usize and u64
            held: run.held as u64,
            pending: run.pending as u64,
            blocks: run.blocks,
            accepted: run.accepted,
        }
    }
}

// What begin and run answer, as a record: a refusal gives its number alone.
impl From<Result<Run, Refusal>> for Record {
    ghost use Rattle.std.specs.Prelude.{◌≡◌};
    ghost use Rattle.checker.specs.Stage.{record_left};
    ghost use Rattle.checker.specs.Calls.{record_as};

    ghost from_gives = { λ left kept. record_as kept ≡ record_left left };

    fn from(left: Result<Run, Refusal>) -> Record {
        match left {
            Ok(run) => Record::from(run),
            Err(refusal) => alone(u64::from(refusal)),
        }
    }
}

impl Record {
    // The run that a record stands for, in rooms of so many places; or 33: the answer is above 6, more blockers are held than there is room, the level is above the
    // word room, more cases are pending than there are levels, or more blocks were made or hints accepted than steps.
    pub(crate) fn to_run(self, blockers: usize, word: usize) -> Result<Run, Refusal>
        requires { word ≤ 65536 }
        ensures number { number_checked result ≡ check (broken (record { blockers = blockers; word = word }) (record_as self)) 33 0 }
        ensures run { IfOk result (λ run. record_in run ≡ record_as self) }
    {
        let answer = Answer::try_from(self.answer)?;
        if (blockers as u64) < self.held
            || (word as u64) < self.level.0
            || self.level.0 < self.pending
            || self.steps < self.blocks
            || self.steps < self.accepted
        {
            return Err(Refusal::BrokenRecord);
        }
        Ok(Run {
            answer,
            steps: self.steps,
            // the bounds above prove that these fit
            level: Level(self.level.0 as u32),
            opened: self.opened,
            held: self.held as usize,
            pending: self.pending as usize,
            blocks: self.blocks,
            accepted: self.accepted,
        })
    }
}
