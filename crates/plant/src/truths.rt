// The truths of an equation section's switches, after 6 (12).
ghost use Rattle.std.specs.Prelude.{◌≡◌, List, ℕ, ◌≤◌, drop};
ghost use Rattle.std.proofs.Math.Option.{some};
ghost use Rattle.semantics.specs.Bytes.{every, read, times};
ghost use Rattle.semantics.specs.Editions.{Edition};
ghost use Rattle.semantics.specs.Sections.{Switch, Mode, Equation, variable_limit, read_switch, read_mode, equation_in_bytes, equations_in};
ghost use Rattle.semantics.specs.Plant.{switch_reads, mode_reads, equation_reads, equations_read_in};
ghost use Rattle.plant.specs.Sound.{Sound, There};

use crate::places::mode_end;

// the truths of a plant with so many variables
#[derive(Clone, Copy)]
struct Truths {
    variables: usize,
    ghost few: { variables ≤ variable_limit },
}

impl Truths {
    // k switches from a place on
    fn of_switches(self, s: &[u8], at: usize, k: usize) -> bool
        requires { Sound (times k read_switch) s.now at }
        ensures { (ed : Edition) (ss : List Switch) (e : List ℕ) → times k read_switch (drop at s.now) ≡ read ss e → result ≡ every (switch_reads ed self.variables) ss }
    {
        let mut p = at;
        for _ in 0..k {
            let e = p + 1 + usize::from(s[p]);
            if !expression::truth_reads(&s[p + 2..e], self.variables) {
                return false;
            }
            p = e;
        }
        true
    }

    // n modes of a CASE
    fn of_modes(self, s: &[u8], at: usize, n: usize) -> bool
        requires { Sound (times n read_mode) s.now at }
        ensures { (ed : Edition) (ms : List Mode) (e : List ℕ) → times n read_mode (drop at s.now) ≡ read ms e → result ≡ every (mode_reads ed self.variables) ms }
    {
        let mut p = at;
        for _ in 0..n {
            let q = p + 1 + 5 * usize::from(s[p]);
            if !self.of_switches(s, q + 1, usize::from(s[q])) {
                return false;
            }
            p = mode_end(s, p);
        }
        true
    }

    // an equation's bytes
    fn of_equation(self, s: &[u8]) -> bool
        requires { There (equation_in_bytes s.now) }
        ensures { (ed : Edition) (q : Equation) → equation_in_bytes s.now ≡ some q → result ≡ equation_reads ed self.variables q }
    {
        if s[0] == 1 {
            return true;
        }
        self.of_modes(s, 3, usize::from(s[2]))
    }
}

// 12, of the switches of a section that 6 lets pass
pub fn read(s: &[u8], variables: usize) -> bool
    requires { There (equations_in s.now) × (variables ≤ variable_limit) }
    ensures { (ed : Edition) (es : List Equation) → equations_in s.now ≡ some es → result ≡ equations_read_in ed variables es }
{
    let truths = Truths { variables };
    let mut p = 1;
    for _ in 0..s[0] {
        let b = p + 2;
        let e = b + codec::nat2(s, p);
        if !truths.of_equation(&s[b..e]) {
            return false;
        }
        p = e;
    }
    true
}
