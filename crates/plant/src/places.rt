// Where the parts of an equation section end, after 6.
ghost use Rattle.std.specs.Prelude.{◌≡◌, ◌+◌, length};
ghost use mathlib.Core.List.{flat_map};
ghost use Rattle.semantics.specs.Bytes.{times};
ghost use Rattle.semantics.specs.Sections.{read_switch, read_mode};
ghost use Rattle.semantics.specs.Writing.{write_switch, write_mode};
ghost use Rattle.plant.specs.Equations.{Stands};

// the place after n switches
fn switches_end(s: &[u8], at: usize, n: u8) -> usize
    requires { Stands (times n read_switch) s.now at }
    ensures { (t : Stands (times n read_switch) s.now at) → result ≡ at + length (flat_map write_switch t.value) }
{
    let mut p = at;
    for _ in 0..n {
        p = p + 1 + usize::from(s[p]);
    }
    p
}

// the place after a mode
pub fn mode_end(s: &[u8], at: usize) -> usize
    requires { Stands read_mode s.now at }
    ensures { (t : Stands read_mode s.now at) → result ≡ at + length (write_mode t.value) }
{
    let k = at + 1 + 5 * usize::from(s[at]);
    switches_end(s, k + 1, s[k])
}
