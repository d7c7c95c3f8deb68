// An accepted table: its four sections, what each node does, and where the moves lead.
use super::fields::Fields;
use super::formula::Formula;
use codec::part::Part;
use edition::Edition;
use std::fmt;
use table_read::actions::Actions;
use table_read::call::TableIndex;

#[derive(Clone, Copy)]
pub struct Table<'a> {
    pub variables: Fields<'a>,
    pub equations: Fields<'a>,
    pub actions: Fields<'a>,
    pub locations: Fields<'a>,
    operations: &'a [u8],
    nodes: &'a Actions,
    ed: Edition,
}

fn part<'a>(bytes: &'a [u8], p: Part) -> &'a [u8] {
    bytes.get(p.start..p.end).unwrap_or(&[])
}

impl<'a> Table<'a> {
    pub fn of(bytes: &'a [u8], x: &'a TableIndex, ed: Edition) -> Table<'a> {
        let operations = part(bytes, x.parts.actions);
        Table {
            variables: Fields::of(part(bytes, x.parts.variables), ed),
            equations: Fields::of(part(bytes, x.parts.equations), ed),
            actions: Fields::of(operations, ed),
            locations: Fields::of(part(bytes, x.parts.locations), ed),
            operations,
            nodes: &x.actions,
            ed,
        }
    }

    // what a node does
    pub fn action(&self, node: usize) -> Action<'a> {
        let Some(kind) = self.nodes.kinds.get(node) else {
            return Action::Stop;
        };
        let p = Part {
            start: self.nodes.starts.get(node).copied().unwrap_or(0),
            end: self.nodes.ends.get(node).copied().unwrap_or(0),
        };
        Action::read(*kind, Fields::of(part(self.operations, p), self.ed))
    }
}

#[derive(Clone, Copy)]
pub enum Action<'a> {
    Test(Formula<'a>),
    Wait(Formula<'a>),
    Assign(u8, Formula<'a>),
    Switch(u8, u8),
    Stop,
}

impl<'a> Action<'a> {
    // by its kind and its operand
    pub fn read(kind: u8, mut operand: Fields<'a>) -> Action<'a> {
        match kind {
            paper::actions::TEST => Action::Test(Formula(operand)),
            paper::actions::WAIT => Action::Wait(Formula(operand)),
            paper::actions::ASSIGN => {
                let variable = operand.byte();
                Action::Assign(variable, Formula(operand))
            }
            paper::actions::SWITCH => {
                let selector = operand.byte();
                Action::Switch(selector, operand.byte())
            }
            _ => Action::Stop,
        }
    }
}

// where a move leads
#[derive(Clone, Copy, PartialEq, Eq)]
pub enum Target {
    Location(u16),
    Halted,
    Finished,
    Nowhere,
}

impl From<u16> for Target {
    fn from(n: u16) -> Target {
        match usize::from(n) {
            paper::targets::HALTED => Target::Halted,
            paper::targets::FINISHED => Target::Finished,
            paper::targets::NONE => Target::Nowhere,
            _ => Target::Location(n),
        }
    }
}

impl fmt::Display for Target {
    fn fmt<W: fmt::Write>(&self, f: &mut fmt::Formatter<W>) -> fmt::Result {
        match self {
            Target::Location(n) => write!(f, "{n}"),
            Target::Halted => f.write_str("halted"),
            Target::Finished => f.write_str("finished"),
            Target::Nowhere => f.write_str("none"),
        }
    }
}

// of a location: a node that acts, and where its move leads, of a test that is true and one that is false
#[derive(Clone, Copy)]
pub struct Entry {
    pub node: usize,
    pub target: Target,
    pub on_false: Target,
}

impl Entry {
    pub fn read(fields: &mut Fields<'_>) -> Entry {
        Entry {
            node: fields.number(),
            target: Target::from(fields.two()),
            on_false: Target::from(fields.two()),
        }
    }
}
