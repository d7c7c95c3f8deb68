// The call "reading a table": conditions 15 to 19, in order.
ghost use Rattle.std.specs.Prelude.{◌≡◌, length};
ghost use Rattle.edition.specs.Editions.{edition_of};
ghost use Rattle.semantics.specs.Editions.{edition1};
ghost use Rattle.semantics.specs.Tables.{judge_table_sections, judge_table};
ghost use Rattle.semantics.specs.Calls.{read_table_of};
ghost use Rattle.paper.specs.Refusals.{judged_of, answered};
ghost use Rattle.table_read.specs.TableParts.{sections_from};
ghost use Rattle.table_read.specs.TableIndex.{told, index_of, table_index};
ghost use Rattle.table_read.specs.Lent.{TablePrograms};

use super::actions::Actions;
use super::locations::Locations;
use super::parts::Parts;
use super::{actions, locations, operands, parts};
use edition::Edition;
use paper::refusals::Refusal;
use plant::sections::PlantRead;
use program::{ENTRIES, RANGES, fill};

// where the sections stand, and what a run looks up in them
#[derive(Clone, Copy)]
pub struct TableIndex {
    pub parts: Parts,
    pub plant: PlantRead,
    pub actions: Actions,
    pub locations: Locations,
}

// how many there are of each
#[derive(Clone, Copy)]
pub struct TableRead {
    pub variables: usize,
    pub selectors: usize,
    pub actions: usize,
    pub locations: usize,
}

// 17 to 19, of the four sections
fn sections(
    parts: Parts,
    vs: &[u8],
    es: &[u8],
    ops: &[u8],
    locs: &[u8],
    ed: Edition,
) -> Result<TableIndex, Refusal>
    ensures { judged_of result ≡ answered (index_of (edition_of ed) parts (sections_from vs.now es.now ops.now locs.now))
        (judge_table_sections (edition_of ed) (sections_from vs.now es.now ops.now locs.now)) }
{
    let Ok(plant) = plant::sections::read(vs, es) else {
        return Err(Refusal::TablePlant);
    };
    let variables = plant.variables;
    let selectors = plant.selectors;
    if !plant::truths::read(es, variables) {
        return Err(Refusal::TablePlant);
    }
    // what was read is lent: it is copied once, into the index
    let operations = actions::read(ops, ed);
    let actions = match &operations {
        Ok(actions) => actions,
        Err(why) => return Err(*why),
    };
    if !operands::read(ops, *actions, variables, selectors, &plant.modes, ed) {
        return Err(Refusal::TableActions);
    }
    let places = locations::read(locs, &actions.kinds, ed);
    let locations = match &places {
        Ok(locations) => locations,
        Err(refusal) => return Err(*refusal),
    };
    Ok(TableIndex {
        parts,
        plant,
        actions: *actions,
        locations: *locations,
    })
}

pub fn index(table: &[u8], ed: Edition) -> Result<TableIndex, Refusal>
    ensures { judged_of result ≡ answered (table_index (edition_of ed) table.now) (judge_table (edition_of ed) table.now) }
{
    let p = parts::read(table, ed)?;
    sections(
        p,
        p.variables.of(table),
        p.equations.of(table),
        p.actions.of(table),
        p.locations.of(table),
        ed,
    )
}

pub fn read(table: &[u8]) -> Result<TableRead, Refusal>
    ensures { told result ≡ read_table_of edition1 table.now }
{
    let read = index(table, Edition::First);
    // lent: the index by value would be copied
    let x = match &read {
        Ok(x) => x,
        Err(unread) => return Err(*unread),
    };
    Ok(TableRead {
        variables: x.plant.variables,
        selectors: x.plant.selectors,
        actions: x.actions.count,
        locations: x.locations.count,
    })
}

// an index as a run looks things up in it, with places in the whole table: its rows are put, and its ranges and rates given
pub fn program(x: TableIndex, index: &mut [usize; ENTRIES]) -> [i32; RANGES]
    requires { length index.old ≡ 2048 }
    ensures { TablePrograms x index.new result }
{
    fill::put_index(
        index,
        x.plant,
        &x.actions.kinds,
        &x.actions.starts,
        &x.actions.ends,
        x.parts.equations.start,
        x.parts.actions.start,
    );
    fill::put_locations(index, &x.locations.places, x.parts.locations.start);
    fill::ranges(x.plant)
}
