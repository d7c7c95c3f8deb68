// The call "compiling": conditions 1 to 11, 34 and 12 to 14, in order, and the table.
ghost use Rattle.std.specs.Prelude.{◌≡◌, List, ℕ, ◌+◌, ◌-◌, ◌≤◌, ◌<◌, length};
ghost use Rattle.semantics.specs.Editions.{edition1};
ghost use Rattle.semantics.specs.Bytes.{width_of};
ghost use Rattle.semantics.specs.Refusals.{accepted};
ghost use Rattle.semantics.specs.TableFile.{location_limit};
ghost use Rattle.edition.specs.Editions.{edition_of};
ghost use Rattle.schedules.specs.Files.{judge_file};
ghost use Rattle.schedules.specs.Compiling.{judge_table_of};
ghost use Rattle.schedules.specs.Calls as calls;
ghost use Rattle.schedules.specs.TableSizes.{rows_length, length_of_parts};
ghost use Rattle.table_write.specs.Pieces.{Put};
ghost use Rattle.compiler.specs.Answers.{told};
ghost use Rattle.paper.specs.Refusals.{judged_of, answered};
ghost use Rattle.compiler.specs.Plans.{Found, Ready, Planned, PlanOf};

use edition::{Edition, NODES};
use numbering::spot::Spot;
use paper::refusals::Refusal;
use schedule_read::call::ScheduleIndex;
use schedule_read::parts::Parts;
use sizes::Size;
use table_write::actions::Actions;
use table_write::table;

// the length of the table and the comparisons of numbering
#[derive(Clone, Copy)]
pub struct Compiled {
    pub length: usize,
    pub comparisons: u64,
}

// What is known of a table before it is written: its length; where the file's sections and nodes stand, the kinds of the nodes' actions,
// how many actions and locations there are and the bytes of their rows.
#[derive(Clone, Copy)]
struct Plan {
    length: usize,
    index: ScheduleIndex,
    acts: [u8; NODES],
    list: Spot,
    rows: Spot,
}

// the bytes of the locations' rows
fn row_bytes(locations: usize, entries: usize, ed: Edition) -> usize
    requires { (locations ≤ location_limit) × (entries ≤ 262144) }
    ensures { (result ≡ rows_length (edition_of ed) locations entries) × (result ≤ 1573888) }
{
    locations + entries * edition::entry_bytes(ed)
}

// the bytes of the table: the sections that are copied, the rows of the actions (list, without their count), the rows of the locations, and what stands around them
fn table_length(q: Parts, list: usize, rows: usize, ed: Edition) -> usize
    requires ordered { (q.variables.start ≤ q.variables.end) × (q.equations.start ≤ q.equations.end) }
    requires short { (q.variables.end < 65536) × (q.equations.end < 65536) × (list ≤ 52224) × (rows ≤ 1573888) }
    ensures is { result ≡ length_of_parts (q.variables.end - q.variables.start) (q.equations.end - q.equations.start) (width_of (edition_of ed).width + list) rows }
    ensures fits { result < 4294967296 }
{
    q.variables.end - q.variables.start
        + (q.equations.end - q.equations.start)
        + list
        + rows
        + 17
        + edition::width(ed)
}

// what the table is made of
fn made(x: ScheduleIndex, m: Size, ed: Edition) -> Plan
    requires { Ready (edition_of ed) x m }
    ensures { (f : List ℕ) → Found (edition_of ed) f x m → Planned (edition_of ed) f result }
{
    let acts = schedule_read::actions::kinds(&x.nodes.kinds, x.nodes.count);
    let actions = Actions {
        count: x.nodes.count,
        kinds: &acts,
        starts: &x.nodes.starts,
        ends: &x.nodes.ends,
    };
    let list = actions.measured(ed);
    let size = row_bytes(m.locations, m.entries, ed);
    Plan {
        length: table_length(x.parts, list.at, size, ed),
        index: x,
        acts,
        list,
        rows: Spot {
            count: m.locations,
            at: size,
        },
    }
}

// 1 to 11, 34, 12 and 13, or what the table is made of
fn planned(file: &[u8], ed: Edition) -> Result<Plan, Refusal>
    ensures { PlanOf (edition_of ed) file.now result }
{
    let x = schedule_read::call::index(file, ed)?;
    let Ok(m) = sizes::of(&x.nodes.kinds, &x.subtrees) else {
        return Err(Refusal::Locations);
    };
    Ok(made(x, m, ed))
}

// The table that was planned, at the front of a buffer that has room for it; its length, and the comparisons of numbering.
fn write(file: &[u8], table: &mut [u8], p: &Plan, comparisons: &mut u64, ed: Edition) -> usize
    requires { Planned (edition_of ed) file.now p.now × (p.now.length ≤ length table.old) }
    ensures written { (t : List ℕ) → judge_table_of (edition_of ed) file.now ≡ accepted t → Put table.old 0 t table.new result }
    ensures comparisons { comparisons.new ≡ calls.file_comparisons (judge_file (edition_of ed) file.now) }
{
    let x = &p.index;
    let actions = Actions {
        count: x.nodes.count,
        kinds: &p.acts,
        starts: &x.nodes.starts,
        ends: &x.nodes.ends,
    };
    let i = table::put_front(
        x.parts.variables.of(file),
        x.parts.equations.of(file),
        table,
        p.length,
        ed,
    );
    let j = table::put_actions(x.parts.schedule.of(file), actions, p.list, table, i, ed);
    table::put_locations(
        &x.nodes.kinds,
        &x.subtrees,
        &p.acts,
        p.rows,
        table,
        j,
        comparisons,
        ed,
    )
}

pub fn compile(file: &[u8], table: &mut [u8]) -> Result<Compiled, Refusal>
    ensures { told result table.new ≡ calls.compile edition1 file.now table.old }
{
    let p = planned(file, Edition::First)?;
    if table.len() < p.length {
        return Err(Refusal::TableRoom);
    }
    let mut comparisons = 0;
    let length = write(file, table, &p, &mut comparisons, Edition::First);
    Ok(Compiled {
        length,
        comparisons,
    })
}

// 1 to 11, 34, 12 and 13, or the length of the table that compiling would write
pub fn measure(file: &[u8]) -> Result<usize, Refusal>
    ensures { judged_of result ≡ answered length (judge_table_of edition1 file.now) }
{
    Ok(planned(file, Edition::First)?.length)
}
