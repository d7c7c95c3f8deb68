// How an event is answered: one case for each number of the printed list.
ghost use Rattle.std.specs.Prelude.{◌≡◌};
ghost use Rattle.paper.specs.Answers.{turned_number, answer_number};

// Why an event is turned away.
#[derive(Clone, Copy, PartialEq, Eq)]
pub enum TurnedAway {
    // 23. "The run is over."
    Over,
    // 24. "The event's kind is unknown or an unused byte is not 0."
    Senseless,
    // 25. "The picked node is not acting."
    NotActing,
    // 26. "There is no such switch."
    NoSwitch,
    // 27. "A tick while some acting node is no CONTINUE."
    NoContinue,
    // 28. "The switch check of a pick or tick stops at a true switch."
    SwitchTrue,
    // 29. "The CONTINUE is not yet true."
    NotYet,
    // 30. "The switch's truth is false."
    SwitchFalse,
    // 31. "A tick whose walk over the CONTINUE truths stops at a true one."
    ContinueTrue,
}

// "200 taken, 201 finished, 202 halted, 203 fault"; "203 means above and a new answer 204 means below"
#[derive(Clone, Copy, PartialEq, Eq)]
pub enum Answer {
    Taken,
    Finished,
    Halted,
    Above,
    Below,
    TurnedAway(TurnedAway),
}

impl From<TurnedAway> for u8 {
    ghost from_gives = { λ why r. r ≡ turned_number why };

    fn from(why: TurnedAway) -> u8 {
        match why {
            TurnedAway::Over => 23,
            TurnedAway::Senseless => 24,
            TurnedAway::NotActing => 25,
            TurnedAway::NoSwitch => 26,
            TurnedAway::NoContinue => 27,
            TurnedAway::SwitchTrue => 28,
            TurnedAway::NotYet => 29,
            TurnedAway::SwitchFalse => 30,
            TurnedAway::ContinueTrue => 31,
        }
    }
}

// The first byte of an event's record.
impl From<Answer> for u8 {
    ghost from_gives = { λ answer r. r ≡ answer_number answer };

    fn from(answer: Answer) -> u8 {
        match answer {
            Answer::Taken => TAKEN,
            Answer::Finished => FINISHED,
            Answer::Halted => HALTED,
            Answer::Above => ABOVE,
            Answer::Below => BELOW,
            Answer::TurnedAway(why) => u8::from(why),
        }
    }
}

// the numbers of answers, for those that read them in records
pub const TAKEN: u8 = 200;

pub const FINISHED: u8 = 201;

pub const HALTED: u8 = 202;

pub const ABOVE: u8 = 203;

pub const BELOW: u8 = 204;
