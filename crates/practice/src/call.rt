// The call "practice events": 32 and 33 in order, then the list.
ghost use Rattle.std.specs.Prelude.{◌≡◌};
ghost use Rattle.semantics.specs.Practice.{practice};
ghost use Rattle.practice.specs.Answers.{practised};

use super::events;
use paper::refusals::Refusal;

// "a count up to 10,000"
pub const MOST_EVENTS: u64 = 10000;

// of a practice event, whatever the edition: "Item 1 goes on writing edition 1 events."
const EVENT_BYTES: usize = 3;

// so many events from a seed at the front of the lent buffer; their bytes
pub fn write(seed: u32, count: u64, events: &mut [u8]) -> Result<usize, Refusal>
    ensures { practised result events.new ≡ practice seed count events.old }
{
    if count > MOST_EVENTS {
        return Err(Refusal::EventCount);
    }
    let n = count as usize;
    if events.len() < EVENT_BYTES * n {
        return Err(Refusal::EventRoom);
    }
    Ok(events::put_list(events, seed, n))
}
