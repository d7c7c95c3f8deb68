// showtable [dot]: a table on standard input as text on standard output, or with the argument dot as a graph for Graphviz.
#![tactic(auto)]

mod fields; // fields.rt: the table's bytes, field by field
mod formula; // formula.rt: numbers and truths
mod graph; // graph.rt: the table as a graph
mod table; // table.rt: what the table says
mod text; // text.rt: the table as text

use edition::Edition;
use std::env::Env;
use table::Table;

#[derive(Clone, Copy, PartialEq, Eq)]
enum Form {
    Text,
    Graph,
}

// no argument, or the word dot
fn asked(rt: &impl Env, words: usize) -> Option<Form> {
    if words < 2 {
        return Some(Form::Text);
    }
    let mut word = [0u8; 4];
    match rt.arg(1, &mut word) {
        Ok(n) if words == 2 && &word[..n] == b"dot".as_slice() => Some(Form::Graph),
        _ => None,
    }
}

fn show(rt: &impl Print, err: &impl Print, form: Form, bytes: &[u8]) {
    let ed = Edition::First;
    match table_read::call::index(bytes, ed) {
        Ok(x) => {
            let table = Table::of(bytes, &x, ed);
            let shown = match form {
                Form::Text => text::show(rt, &table),
                Form::Graph => graph::show(rt, &table),
            };
            output::noticed(err, b"showtable", shown);
        }
        Err(why) => {
            let number = u8::from(why);
            let _ = println!(err; "showtable: the table is refused with {number}");
        }
    }
}

fn main(rt: HostRuntime) {
    let err = rt.stderr();
    let Some(form) = asked(&rt, input::words(&rt)) else {
        let _ = println!(err; "showtable: usage: showtable [dot]");
        return;
    };
    let mut buffer = [0; output::TABLE_ROOM];
    if let Some(n) = input::standard(&rt, &err, b"showtable", &mut buffer) {
        show(&rt, &err, form, &buffer[..n]);
    }
}
