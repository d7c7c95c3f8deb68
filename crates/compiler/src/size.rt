// The call "size of a schedule": 1 to 11, 34 and 12 as for reading, or how many locations and entries its table has, without numbering them.
ghost use Rattle.std.specs.Prelude.{◌≡◌};
ghost use Rattle.semantics.specs.Editions.{edition1};
ghost use Rattle.schedules.specs.Calls.{size};
ghost use Rattle.compiler.specs.Answers.{told_size};

use edition::Edition;
use paper::refusals::Refusal;

// "1,025 locations stand for any number above 1,024": what README and the calls from C say
const OVER: usize = paper::LOCATIONS + 1;

// the exact numbers; or 1,025 and 0 where there are over 1,024 locations
#[derive(Clone, Copy)]
pub struct TableSize {
    pub locations: usize,
    pub entries: usize,
}

pub fn of(file: &[u8]) -> Result<TableSize, Refusal>
    ensures { told_size result ≡ size edition1 file.now }
{
    let x = schedule_read::call::index(file, Edition::First)?;
    match sizes::of(&x.nodes.kinds, &x.subtrees) {
        Ok(m) => Ok(TableSize {
            locations: m.locations,
            entries: m.entries,
        }),
        Err(_) => Ok(TableSize {
            locations: OVER,
            entries: 0,
        }),
    }
}
