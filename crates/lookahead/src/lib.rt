// What a run of a table would answer to three events, with no record written.
#![tactic(auto)]

ghost use Rattle.std.specs.Prelude.{◌≡◌};
ghost use Rattle.semantics.specs.Editions.{edition1};
ghost use Rattle.paper.specs.Refusals.{judged_of, answered};
ghost use Rattle.edition.specs.Editions.{edition_of};
ghost use Rattle.program.specs.Lent.{lent_of};
ghost use Rattle.lookahead.specs.Ahead.{numbers_of, three_answers};
ghost use Rattle.lookahead.specs.Asked.{Lending, AnswersAll, Admitting, AnswersStart};

use edition::Edition;
use event::Event;
use paper::answers::Answer;
use paper::refusals::Refusal;
use program::Program;
use start_read::admission::Admitted;
use table_read::call::TableIndex;
use table_step::steps;

#[derive(Clone, Copy)]
pub struct Answers {
    pub first: Answer,
    pub second: Answer,
    pub third: Answer,
}

// Three steps of a run, each where the one before left it.
fn ahead(
    p: &Program<'_>,
    a: Event,
    b: Event,
    c: Event,
    values: &mut [i32],
    modes: &mut [u8],
    ed: Edition,
) -> Answers
    requires { Lending (edition_of ed) (lent_of p.now) values.old modes.old }
    ensures { AnswersAll (edition_of ed) (lent_of p.now) values.old modes.old a b c result }
{
    let mut at = steps::start(p, ed);
    let first = steps::step(p, a, &mut at, values, modes, ed);
    let second = steps::step(p, b, &mut at, values, modes, ed);
    let third = steps::step(p, c, &mut at, values, modes, ed);
    Answers {
        first,
        second,
        third,
    }
}

// The same of a table that was read, and of the start that it is run from.
fn lend(
    x: TableIndex,
    start: Admitted,
    table: &[u8],
    a: Event,
    b: Event,
    c: Event,
    ed: Edition,
) -> Answers
    requires { Admitting (edition_of ed) table.now x start }
    ensures { AnswersStart (edition_of ed) table.now x start a b c result }
{
    let mut index = [0usize; program::ENTRIES];
    let ranges = table_read::call::program(x, &mut index);
    let p = Program {
        bytes: table,
        index: &index,
        ranges: &ranges,
    };
    let mut values = start.values;
    let mut modes = start.modes;
    ahead(
        &p,
        a,
        b,
        c,
        &mut values[..x.plant.variables],
        &mut modes[..x.plant.selectors],
        ed,
    )
}

// The answers to three events at the start of a run of the table.
pub fn three(table: &[u8], start: &[u8], a: Event, b: Event, c: Event) -> Result<Answers, Refusal>
    ensures { answered numbers_of (judged_of result) ≡ three_answers edition1 table.now start.now a b c }
{
    let ed = Edition::First;
    let x = table_read::call::index(table, ed)?;
    // no events and no records: 20 alone is judged
    let asked = start_read::admission::admit(x.plant, start, 0, 0, ed)?;
    Ok(lend(x, asked, table, a, b, c, ed))
}
