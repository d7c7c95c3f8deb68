// runtable TABLE EVENTS [START]: the records of a run on standard output, or the refusal as one byte; the counts, and which event faulted, on standard error.
// Without START the run starts from the initial values and modes of the table itself.
#![tactic(auto)]

// how many variables and selectors an accepted table has
fn counts(table: &[u8]) -> Option<(usize, usize)> {
    let x = table_read::call::read(table).ok()?;
    Some((x.variables, x.selectors))
}

fn main(rt: HostRuntime) {
    running::run(
        &rt,
        &rt.stderr(),
        b"runtable",
        "TABLE",
        &mut [0; output::TABLE_ROOM],
        initial_start::table::start,
        table_run::call::run,
        counts,
    );
}
