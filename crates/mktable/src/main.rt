// K1's program: a schedule on standard input, its table on standard output, or the refusal as one byte.
// Of an input that is longer than any schedule the front part tells the refusal: its length field has two bytes, so that either gives 1 or 2.
#![tactic(auto)]

// longer than any schedule, and as long as a table may be here
const ROOM: usize = 65536;

fn main(rt: HostRuntime) {
    let err = rt.stderr();
    let mut buffer = [0; ROOM];
    let Some(n) = input::standard_front(&rt, &err, b"mktable", &mut buffer) else {
        return;
    };
    let mut table = [0; ROOM];
    let answer = compiler::call::compile(&buffer[..n], &mut table).map(|made| made.length);
    output::give(&rt, &err, b"mktable", answer, &table);
}
