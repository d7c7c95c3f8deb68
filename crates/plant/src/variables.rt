// The variable section: its layout (4) and the order of each variable's values (5).
ghost use Rattle.std.specs.Prelude.{◌≡◌, ◌≤◌, IfOk};
ghost use Rattle.paper.specs.Refusals.{judged_of, answered};
ghost use Rattle.semantics.specs.Editions.{Edition};
ghost use Rattle.semantics.specs.Sections.{variable_limit};
ghost use Rattle.semantics.specs.Plant.{judge_variables};
ghost use Rattle.plant.specs.Variables.{accepted_variables, VariablesStand, Counted};

use paper::refusals::Refusal;

#[derive(Clone, Copy)]
pub struct Variables {
    pub count: usize,
    pub lows: [i32; paper::VARIABLES],
    pub highs: [i32; paper::VARIABLES],
    pub initials: [i32; paper::VARIABLES],
}

// the count, where the section has the bytes that it asks for
fn counted(s: &[u8]) -> Option<usize>
    ensures { Counted s.now result }
{
    let n = usize::from(*s.first()?);
    if n < 1 || n > paper::VARIABLES || s.len() != 1 + 12 * n {
        return None;
    }
    Some(n)
}

// n variables, from place 1 on
fn values(s: &[u8], n: usize) -> Result<Variables, Refusal>
    requires { VariablesStand s.now n }
    ensures judged { (ed : Edition) → judged_of result ≡ answered accepted_variables (judge_variables ed s.now) }
    ensures few { IfOk result (λ v. v.count ≤ variable_limit) }
{
    let mut lows = [0i32; paper::VARIABLES];
    let mut highs = [0i32; paper::VARIABLES];
    let mut initials = [0i32; paper::VARIABLES];
    for i in 0..n {
        let p = 1 + 12 * i;
        let low = codec::int4(s, p);
        let high = codec::int4(s, p + 4);
        let first = codec::int4(s, p + 8);
        if !(low..=high).contains(&first) {
            return Err(Refusal::ValueOrder);
        }
        lows[i] = low;
        highs[i] = high;
        initials[i] = first;
    }
    Ok(Variables {
        count: n,
        lows,
        highs,
        initials,
    })
}

// 4 and 5; where neither refuses, each variable's values
pub fn read(s: &[u8]) -> Result<Variables, Refusal>
    ensures judged { (ed : Edition) → judged_of result ≡ answered accepted_variables (judge_variables ed s.now) }
    ensures few { IfOk result (λ v. v.count ≤ variable_limit) }
{
    match counted(s) {
        Some(n) => values(s, n),
        None => Err(Refusal::VariableLayout),
    }
}
