// runrules SCHEDULE EVENTS [START]: the records of a run on standard output, or the refusal as one byte; the counts, and which event faulted, on standard error.
// Without START the run starts from the initial values and modes of the schedule itself.
#![tactic(auto)]

// how many variables and selectors an accepted schedule has
fn counts(file: &[u8]) -> Option<(usize, usize)> {
    let x = schedule_read::call::read(file).ok()?;
    Some((x.variables, x.selectors))
}

fn main(rt: HostRuntime) {
    running::run(
        &rt,
        &rt.stderr(),
        b"runrules",
        "SCHEDULE",
        &mut [0; paper::FILE_BYTES],
        initial_start::schedule::start,
        rule_run::call::run,
        counts,
    );
}
