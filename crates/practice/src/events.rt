// The events of a list: one draw each, three bytes each.
ghost use Rattle.std.specs.Prelude.{◌≡◌, ◌*◌, ◌≤◌, length};
ghost use Rattle.semantics.specs.Practice.{event_of_seed, bytes_of_event, practice_list};
ghost use Rattle.codec.specs.Writing.{Wrote};

use super::generator::Generator;
use paper::events::{PICK, SWITCH, TICK};

// what the lowest of "the top two bits" and of "the next six bits" of a seed is worth
const TOP_TWO: u32 = 1073741824;

const NEXT_SIX: u32 = 16777216;

// as many numbers as six bits have, and three
const BY_SIX_BITS: u32 = 64;

const BY_THREE_BITS: u8 = 8;

// "the new seed's top two bits 0 give a tick, 1 or 2 a pick, 3 a switch"
const GIVE_TICK: u32 = 0;

const GIVE_SWITCH: u32 = 3;

// the bytes of a new seed's event
fn event_of(seed: u32) -> [u8; 3]
    ensures { result ≡ bytes_of_event (event_of_seed seed) }
{
    let six = (seed / NEXT_SIX % BY_SIX_BITS) as u8;
    match seed / TOP_TWO {
        GIVE_TICK => [TICK, 0, 0],
        GIVE_SWITCH => [SWITCH, six / BY_THREE_BITS, six % BY_THREE_BITS],
        _ => [PICK, six, 0],
    }
}

// the list at the front of the buffer; its length
pub fn put_list(d: &mut [u8], seed: u32, count: usize) -> usize
    requires { 3 * count ≤ length d.old }
    ensures { (result ≡ 3 * count) × Wrote d.old 0 (practice_list seed count) d.new }
{
    let mut generator = Generator { seed };
    let mut at = 0;
    for _ in 0..count {
        let next = generator.draw();
        at = codec::put_slice(d, at, &event_of(next.seed));
        generator = next;
    }
    at
}
