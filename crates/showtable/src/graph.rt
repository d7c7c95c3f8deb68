// A table as a graph for Graphviz: a circle for each location, an arrow for each target. The arrow has its node and kind, true or false of a test, and below
// them what the action does.
use super::fields::Fields;
use super::table::{Action, Entry, Table, Target};
use std::io;

// whether an entry of the locations leads there
fn leads(mut fields: Fields<'_>, to: Target) -> bool {
    for _ in 0..fields.two() {
        for _ in 0..fields.byte() {
            let e = Entry::read(&mut fields);
            if e.target == to || e.on_false == to {
                return true;
            }
        }
    }
    false
}

// what stands before the arrows; an end of the run is drawn where it is reached
fn start(out: &impl Print, locations: Fields<'_>) -> io::Result<()> {
    print!(out;
        "digraph table {{\n    rankdir=LR;\n    node [shape=circle];\n    start [shape=point];"
    )?;
    if leads(locations, Target::Finished) {
        print!(out; "\n    finished [shape=doublecircle];")?;
    }
    if leads(locations, Target::Halted) {
        print!(out; "\n    halted [shape=octagon];")?;
    }
    print!(out; "\n    start -> 0;")
}

// one arrow from location n; of a test, whether it is the one of true
fn arrow(
    out: &impl Print,
    n: u16,
    node: usize,
    target: Target,
    action: Action<'_>,
    is_true: bool,
) -> io::Result<()> {
    print!(out; "\n    {n} -> {target} [label=\"{node} ")?;
    match action {
        Action::Test(truth) => print!(out; "test {is_true}\\n{truth}"),
        Action::Wait(truth) => print!(out; "wait\\n{truth}"),
        Action::Assign(v, number) => print!(out; "assign\\nv{v} := {number}"),
        Action::Switch(selector, mode) => print!(out;
            "switch\\nselector {selector} to mode {mode}"
        ),
        Action::Stop => print!(out; "stop"),
    }?;
    print!(out; "\"];")
}

fn arrows(out: &impl Print, table: &Table<'_>) -> io::Result<()> {
    let mut fields = table.locations;
    for n in 0..fields.two() {
        for _ in 0..fields.byte() {
            let e = Entry::read(&mut fields);
            let action = table.action(e.node);
            arrow(out, n, e.node, e.target, action, true)?;
            if let Action::Test(_) = action {
                arrow(out, n, e.node, e.on_false, action, false)?;
            }
        }
    }
    Ok(())
}

pub fn show(out: &impl Print, table: &Table<'_>) -> io::Result<()> {
    start(out, table.locations)?;
    arrows(out, table)?;
    print!(out; "\n}}\n")
}
