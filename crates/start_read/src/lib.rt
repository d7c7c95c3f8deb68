// The values and modes that a run starts from: 20.
#![tactic(auto)]

pub mod admission; // admission.rt: 20 to 22 in order

ghost use Rattle.std.specs.Prelude.{◌≡◌};
ghost use Rattle.paper.specs.Refusals.{judged_of, answered};
ghost use Rattle.semantics.specs.Plant.{Plant};
ghost use Rattle.semantics.specs.Calls.{judge_start};
ghost use Rattle.start_read.specs.StartRead.{Arrays, Room, RoomForValues, RoomForModes, ValuesOf, ModesOf};
ghost use Rattle.start_read.specs.Admission.{admitted};

use admission::Admitted;
use paper::refusals::Refusal;
use plant::sections::PlantRead;

// the first n values, where each is in its range
fn read_values(s: &[u8], n: usize, lows: &[i32], highs: &[i32]) -> Option<[i32; paper::VARIABLES]>
    requires { RoomForValues s.now n lows.now highs.now }
    ensures { ValuesOf s.now n lows.now highs.now result }
{
    let mut values = [0i32; paper::VARIABLES];
    for i in 0..n {
        let z = codec::int4(s, 4 * i);
        if !(lows[i]..=highs[i]).contains(&z) {
            return None;
        }
        values[i] = z;
    }
    Some(values)
}

// the first n bytes as modes, where each is below its selector's mode count; with read_values it shares the loop alone: what is read of how many
// bytes, its test and its array would all be arguments
fn read_modes(s: &[u8], n: usize, counts: &[usize]) -> Option<[u8; paper::EQUATIONS]>
    requires { RoomForModes s.now n counts.now }
    ensures { ModesOf s.now n counts.now result }
{
    let mut modes = [0u8; paper::EQUATIONS];
    for i in 0..n {
        let m = s[i];
        if usize::from(m) >= counts[i] {
            return None;
        }
        modes[i] = m;
    }
    Some(modes)
}

// the starting values and modes, where 20 does not refuse them
fn read(s: &[u8], plant: PlantRead) -> Result<Admitted, Refusal>
    requires { Room plant }
    ensures { (p : Plant) → Arrays p plant → judged_of result ≡ answered admitted (judge_start p s.now) }
{
    let place = 4 * plant.variables;
    if s.len() != place + plant.selectors {
        return Err(Refusal::Start);
    }
    let Some(values) = read_values(s, plant.variables, &plant.lows, &plant.highs) else {
        return Err(Refusal::Start);
    };
    let Some(modes) = read_modes(&s[place..], plant.selectors, &plant.modes) else {
        return Err(Refusal::Start);
    };
    Ok(Admitted { values, modes })
}
