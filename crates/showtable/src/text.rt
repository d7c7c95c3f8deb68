// A table as text.
use super::fields::Fields;
use super::formula::Formula;
use super::table::{Action, Entry, Table};
use std::io;

fn variables(out: &impl Print, mut fields: Fields<'_>) -> io::Result<()> {
    for n in 0..fields.byte() {
        let least = fields.signed();
        let most = fields.signed();
        let initial = fields.signed();
        print!(out; "\n  v{n}: {least}..{most}, initially {initial}")?;
    }
    Ok(())
}

// a variable and its change at each tick
fn rate(out: &impl Print, margin: &str, fields: &mut Fields<'_>) -> io::Result<()> {
    let variable = fields.byte();
    let change = fields.signed();
    print!(out; "\n{margin}v{variable} changes by {change} at a tick")
}

// a mode's rates, and the truths at which it may be left
fn mode(out: &impl Print, fields: &mut Fields<'_>) -> io::Result<()> {
    for _ in 0..fields.byte() {
        rate(out, "      ", fields)?;
    }
    for _ in 0..fields.byte() {
        let length = fields.byte();
        let mut switch = fields.part(usize::from(length));
        let to = switch.byte();
        let truth = Formula(switch);
        print!(out; "\n      to mode {to} where {truth}")?;
    }
    Ok(())
}

fn selector(out: &impl Print, n: u8, mut fields: Fields<'_>) -> io::Result<()> {
    let initial = fields.byte();
    print!(out; "\n  selector {n}, initially mode {initial}")?;
    for m in 0..fields.byte() {
        print!(out; "\n    mode {m}")?;
        mode(out, &mut fields)?;
    }
    Ok(())
}

// an equation is its length in two bytes, its kind and what it says; kind 1 drives a variable by itself
fn equations(out: &impl Print, mut fields: Fields<'_>) -> io::Result<()> {
    let mut selectors = 0u8;
    for _ in 0..fields.byte() {
        let length = fields.two();
        let mut equation = fields.part(usize::from(length));
        if equation.byte() == 1 {
            rate(out, "  ", &mut equation)?;
        } else {
            selector(out, selectors, equation)?;
            selectors = selectors.wrapping_add(1);
        }
    }
    Ok(())
}

fn action(out: &impl Print, node: usize, action: Action<'_>) -> io::Result<()> {
    print!(out; "\n  node {node}: ")?;
    match action {
        Action::Test(truth) => print!(out; "test {truth}"),
        Action::Wait(truth) => print!(out; "wait {truth}"),
        Action::Assign(v, number) => print!(out; "assign v{v} := {number}"),
        Action::Switch(selector, mode) => print!(out; "switch selector {selector} to mode {mode}"),
        Action::Stop => print!(out; "stop"),
    }
}

// an action is its length, node, kind and operand
fn actions(out: &impl Print, mut fields: Fields<'_>) -> io::Result<()> {
    for _ in 0..fields.number() {
        let length = fields.number();
        let mut operand = fields.part(length);
        let node = operand.number();
        let kind = operand.byte();
        action(out, node, Action::read(kind, operand))?;
    }
    Ok(())
}

fn entry(out: &impl Print, action: Action<'_>, e: Entry) -> io::Result<()> {
    let Entry {
        node,
        target,
        on_false,
    } = e;
    print!(out; "\n    node {node} ")?;
    match action {
        Action::Test(_) => print!(out; "test -> true {target}, false {on_false}"),
        Action::Wait(_) => print!(out; "wait -> {target}"),
        Action::Assign(_, _) => print!(out; "assign -> {target}"),
        Action::Switch(_, _) => print!(out; "switch -> {target}"),
        Action::Stop => print!(out; "stop -> {target}"),
    }
}

fn locations(out: &impl Print, table: &Table<'_>) -> io::Result<()> {
    let mut fields = table.locations;
    for n in 0..fields.two() {
        print!(out; "\n  location {n}")?;
        for _ in 0..fields.byte() {
            let e = Entry::read(&mut fields);
            entry(out, table.action(e.node), e)?;
        }
    }
    Ok(())
}

pub fn show(out: &impl Print, table: &Table<'_>) -> io::Result<()> {
    print!(out; "variables")?;
    variables(out, table.variables)?;
    print!(out; "\nequations")?;
    equations(out, table.equations)?;
    print!(out; "\nactions")?;
    actions(out, table.actions)?;
    print!(out; "\nlocations")?;
    locations(out, table)?;
    println!(out)
}
