// Both sections of a plant, judged in order: 4 to 8.
ghost use Rattle.std.specs.Prelude.{◌≡◌};
ghost use Rattle.paper.specs.Refusals.{judged_of, answered};
ghost use Rattle.semantics.specs.Editions.{Edition};
ghost use Rattle.semantics.specs.Plant.{judge_plant};
ghost use Rattle.plant.specs.PlantRead.{accepted_plant};

use crate::driven;
use crate::equations::{self, Equations};
use crate::variables::{self, Variables};
use paper::refusals::Refusal;

#[derive(Clone, Copy)]
pub struct PlantRead {
    pub variables: usize,
    pub lows: [i32; paper::VARIABLES],
    pub highs: [i32; paper::VARIABLES],
    pub selectors: usize,
    pub modes: [usize; paper::EQUATIONS],
    pub mode_offsets: [usize; paper::MODE_PLACES],
    pub steady: [i32; paper::VARIABLES],
    pub driven: [bool; paper::VARIABLES],
}

// the first refusal of the two sections; where there is none, what a run and the checks of a schedule's nodes look up in them
pub fn read(vs: &[u8], es: &[u8]) -> Result<PlantRead, Refusal>
    ensures { (ed : Edition) → judged_of result ≡ answered accepted_plant (judge_plant ed vs.now es.now) }
{
    let Variables {
        count: variables,
        lows,
        highs,
        ..
    } = variables::read(vs)?;
    let Equations {
        selectors,
        modes,
        mode_offsets,
        steady,
    } = equations::read(es, variables)?;
    let driven = driven::read(es)?;
    Ok(PlantRead {
        variables,
        lows,
        highs,
        selectors,
        modes,
        mode_offsets,
        steady,
        driven,
    })
}
