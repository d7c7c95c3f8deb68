// The call "reading a schedule": conditions 1 to 11, 34 and 12, in order.
ghost use Rattle.std.specs.Prelude.{◌≡◌, length};
ghost use Rattle.semantics.specs.Editions.{edition1};
ghost use Rattle.semantics.specs.Editions as papers;
ghost use Rattle.edition.specs.Editions.{edition_of};
ghost use Rattle.schedules.specs.Calls.{read_schedule};
ghost use Rattle.schedule_read.specs.Indexed.{Indexed};
ghost use Rattle.schedule_read.specs.ScheduleFile.{told, ScheduleIndexed, Planted, NodesJudged};
ghost use Rattle.schedule_read.specs.Lent.{SchedulePrograms};

use super::parts::Parts;
use super::{actions, assignments, names, node, operands, parts};
use edition::{Edition, NODES};
use paper::refusals::Refusal;
use plant::sections::PlantRead;
use program::{ENTRIES, RANGES, fill};
use tree_read::nodes::Nodes;
use tree_read::{nodes, tree};

// how many of each an accepted file has
#[derive(Clone, Copy)]
pub struct FileRead {
    pub variables: usize,
    pub selectors: usize,
    pub nodes: usize,
}

// a schedule file as what runs or compiles it looks things up: where its sections stand, the plant, the nodes, and where the subtree of each node ends
#[derive(Clone, Copy)]
pub struct ScheduleIndex {
    pub parts: Parts,
    pub plant: PlantRead,
    pub subtrees: [usize; NODES],
    pub nodes: Nodes,
}

// 11, 34 and 12 in one pass: 11 of any node comes before 34 of any, and that before 12 of any node or switch; the nodes stand in s, the equations in es
fn checked(es: &[u8], s: &[u8], nodes: &Nodes, plant: &PlantRead) -> Result<(), Refusal>
    requires { Indexed s.now nodes.now × Planted es.now plant.now }
    ensures { (ed : papers.Edition) → NodesJudged ed es.now s.now nodes.now plant.now result }
{
    let mut named = true;
    let mut parted = true;
    let mut read = plant::truths::read(es, plant.variables);
    for i in 0..nodes.count {
        let x = node::at(s, nodes, i);
        named &= names::one(x, plant.variables, plant.selectors, &plant.modes);
        parted &= assignments::one(x, &plant.driven);
        read &= operands::one(x, plant.variables);
    }
    if !named {
        return Err(Refusal::NodeName);
    }
    if !parted {
        return Err(Refusal::Parting);
    }
    if !read {
        return Err(Refusal::Expression);
    }
    Ok(())
}

pub fn index(file: &[u8], ed: Edition) -> Result<ScheduleIndex, Refusal>
    ensures { ScheduleIndexed (edition_of ed) file.now result }
{
    let parts = parts::read(file, ed)?;
    let es = parts.equations.of(file);
    let s = parts.schedule.of(file);
    let plant = plant::sections::read(parts.variables.of(file), es)?;
    let mut nodes = Nodes {
        count: 0,
        kinds: [0; NODES],
        starts: [0; NODES],
        ends: [0; NODES],
    };
    let mut subtrees = [0; NODES];
    let count = nodes::read(s, &mut nodes.kinds, &mut nodes.starts, &mut nodes.ends, ed)?;
    nodes.count = count;
    tree::read(s, &nodes.kinds, &nodes.starts, count, &mut subtrees)?;
    checked(es, s, &nodes, &plant)?;
    Ok(ScheduleIndex {
        parts,
        plant,
        subtrees,
        nodes,
    })
}

pub fn read(file: &[u8]) -> Result<FileRead, Refusal>
    ensures { told result ≡ read_schedule edition1 file.now }
{
    let x = index(file, Edition::First)?;
    Ok(FileRead {
        variables: x.plant.variables,
        selectors: x.plant.selectors,
        nodes: x.nodes.count,
    })
}

// an index as a run looks things up in it, with places in the whole file: its rows are put, and its ranges and rates given
pub fn program(x: &ScheduleIndex, index: &mut [usize; ENTRIES]) -> [i32; RANGES]
    requires { length index.old ≡ 2048 }
    ensures { SchedulePrograms x.now index.new result }
{
    let m = x.nodes.count.min(NODES);
    let acts = actions::kinds(&x.nodes.kinds, m);
    fill::put_index(
        index,
        x.plant,
        &acts[..m],
        &x.nodes.starts[..m],
        &x.nodes.ends[..m],
        x.parts.equations.start,
        x.parts.schedule.start,
    );
    fill::ranges(x.plant)
}
