// The bytes of a table, section by section.
ghost use Rattle.std.specs.Prelude.{◌++◌, [], ◌+◌, ◌≤◌, ◌<◌, length};
ghost use Rattle.semantics.specs.TableFile.{in_section2, copied_then, action_section, write_actions, table_head};
ghost use Rattle.edition.specs.Editions.{edition_of};
ghost use Rattle.numbering.specs.Located.{ComparisonsAre};
ghost use Rattle.table_write.specs.ActionTable.{actions_to, Operands, Measured};
ghost use Rattle.table_write.specs.LocationTable.{Counted, LocationsPut};
ghost use Rattle.table_write.specs.Pieces.{Put};

use super::actions::Actions;
use edition::Edition;
use numbering::locations;
use numbering::spot::Spot;

// a section with its length, at a place; the next place
fn put_section(d: &mut [u8], i: usize, s: &[u8]) -> usize
    requires { (i + length (in_section2 s.now) ≤ length d.old) × (length s.now < 65536) }
    ensures { Put d.old i (in_section2 s.now) d.new result }
{
    let j = codec::put2(d, i, s.len());
    codec::put_slice(d, j, s)
}

// the front of a table of this length: up to the sections that are copied; the next place
pub fn put_front<'a>(
    vs: &'a [u8],
    es: &'a [u8],
    table: &mut [u8],
    whole: usize,
    ed: Edition,
) -> usize
    requires short { (length vs.now < 65536) × (length es.now < 65536) × (whole < 4294967296) }
    requires room { length (table_head (edition_of ed) whole ++ copied_then vs.now es.now []) ≤ length table.old }
    ensures { Put table.old 0 (table_head (edition_of ed) whole ++ copied_then vs.now es.now []) table.new result }
{
    let i = codec::put1(table, 0, edition::version(ed));
    let j = codec::put4(table, i, whole);
    let l = put_section(table, j, vs);
    put_section(table, l, es)
}

// the action section, of so many actions and bytes of rows, at a place; the next place
pub fn put_actions(
    s: &[u8],
    actions: Actions<'_>,
    list: Spot,
    table: &mut [u8],
    i: usize,
    ed: Edition,
) -> usize
    requires in_index { Operands (edition_of ed) s.now actions.kinds.now actions.starts.now actions.ends.now actions.count
        × Measured (edition_of ed) actions.kinds.now actions.starts.now actions.ends.now actions.count list.count list.at }
    requires room { i + length (action_section (write_actions (edition_of ed) (actions_to s.now actions.kinds.now actions.starts.now actions.ends.now actions.count))) ≤ length table.old }
    ensures { Put table.old i
        (action_section (write_actions (edition_of ed) (actions_to s.now actions.entry.kinds.now actions.entry.starts.now actions.entry.ends.now actions.entry.count))) table.new result }
{
    let j = codec::put2(table, i, list.at + edition::width(ed));
    let l = codec::put_number(table, j, list.count, ed);
    actions.write(s, table, l, ed)
}

// the location section, of so many locations and bytes of rows, at a place; the next place, and the comparisons of numbering
// The tree's arrays are not put into a struct: numbering asks for them one by one.
pub fn put_locations<'a>(
    kinds: &'a [u8],
    subs: &'a [usize],
    acts: &'a [u8],
    rows: Spot,
    table: &mut [u8],
    i: usize,
    comparisons: &mut u64,
    ed: Edition,
) -> usize
    requires { Counted (edition_of ed) kinds.now subs.now acts.now rows.count rows.at table.old i × (256 ≤ length acts.now) }
    ensures locations_put { LocationsPut (edition_of ed) kinds.now subs.now acts.now rows.count rows.at table.old i table.new result }
    ensures comparisons { ComparisonsAre kinds.now subs.now acts.now comparisons.new }
{
    let j = codec::put4(table, i, rows.at + 2);
    let l = codec::put2(table, j, rows.count);
    locations::number(kinds, subs, acts, table, l, comparisons, ed)
}
