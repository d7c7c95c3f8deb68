// The start that a file itself gives: the initial value of each variable, then the initial mode of each CASE.
#![tactic(auto)]

pub mod schedule; // schedule.rt: of a schedule file
pub mod table; // table.rt: of a table

ghost use Rattle.std.specs.Prelude.{◌≡◌, [], ◌+◌, ◌≤◌, length};
ghost use Rattle.semantics.specs.Editions.{Edition};
ghost use Rattle.plant.specs.Equations.{SectionStands};
ghost use Rattle.codec.specs.Writing.{Wrote};
ghost use Rattle.initial_start.specs.Initial.{initial_modes, sections_start};
ghost use Rattle.initial_start.specs.Held.{held, held_bytes};

// the initial mode of each CASE of a section whose layout is right, at a place; the next place
fn put_modes(d: &mut [u8], i: usize, es: &[u8]) -> usize
    requires { (i + 16 ≤ length d.old) × SectionStands es.now }
    ensures { (t : SectionStands es.now) → (result ≡ i + length (initial_modes t.equations)) × Wrote d.old i (initial_modes t.equations) d.new }
{
    let mut at = i;
    let mut p = 1;
    for _ in 0..es[0] {
        let k = p + 2;
        if es[k] != 1 {
            at = codec::put1(d, at, es[k + 1]);
        }
        p = k + codec::nat2(es, p);
    }
    at
}

// a start's bytes at the front, and how many they are: a slice has no room of its own, and nothing allocates here
#[derive(Clone, Copy)]
pub struct Start {
    pub length: usize,
    pub bytes: [u8; paper::START_BYTES],
}

impl Start {
    // the start's bytes, none where there is no room for so many
    pub fn as_slice(&self) -> &[u8]
        ensures { result.now ≡ held_bytes self.now }
    {
        self.bytes.get(..self.length).unwrap_or(&[])
    }
}

fn none() -> Start
    ensures { result ≡ held [] }
{
    Start {
        length: 0,
        bytes: [0; paper::START_BYTES],
    }
}

// of a plant's two sections; none where 4 to 8 refuse them
pub fn of(vs: &[u8], es: &[u8]) -> Start
    ensures { (ed : Edition) → result ≡ held (sections_start ed vs.now es.now) }
{
    let Ok(v) = plant::variables::read(vs) else {
        return none();
    };
    let Ok(_) = plant::sections::read(vs, es) else {
        return none();
    };
    let mut bytes = [0u8; paper::START_BYTES];
    let at = records::put_values(&mut bytes, 0, &v.initials[..v.count]);
    let length = put_modes(&mut bytes, at, es);
    Start { length, bytes }
}
