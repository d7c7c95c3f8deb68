// What a run is admitted by: its start (20), whole events (21), room for its records (22).
ghost use Rattle.std.specs.Prelude.{◌≡◌, List, ℕ, length};
ghost use Rattle.paper.specs.Refusals.{judged_of, answered};
ghost use Rattle.semantics.specs.Plant.{Plant};
ghost use Rattle.semantics.specs.Calls.{judge_admission};
ghost use Rattle.edition.specs.Editions.{edition_of};
ghost use Rattle.start_read.specs.StartRead.{Arrays, Room};
ghost use Rattle.start_read.specs.Admission.{admitted};

use edition::Edition;
use paper::refusals::Refusal;
use plant::sections::PlantRead;

// the values and modes that a run starts from
#[derive(Clone, Copy)]
pub struct Admitted {
    pub values: [i32; paper::VARIABLES],
    pub modes: [u8; paper::EQUATIONS],
}

// a start, so many event bytes and a record buffer of so many bytes
pub fn admit(
    plant: PlantRead,
    start: &[u8],
    events: usize,
    room: usize,
    ed: Edition,
) -> Result<Admitted, Refusal>
    requires { Room plant }
    ensures { (p : Plant) → Arrays p plant → (es d : List ℕ) → length es ≡ events → length d ≡ room →
        judged_of result ≡ answered admitted (judge_admission (edition_of ed) p start.now es d) }
{
    let first = super::read(start, plant)?;
    let bytes = edition::event_bytes(ed);
    if events % bytes != 0 {
        return Err(Refusal::EventLength);
    }
    let size = records::record_length(plant.variables, plant.selectors, ed);
    if room / size < events / bytes {
        return Err(Refusal::RecordRoom);
    }
    Ok(first)
}
