// An event, decoded once from its bytes.
#![tactic(auto)]

ghost use Rattle.std.specs.Prelude.{◌≡◌, ◌+◌, ◌≤◌, ◌==◌, length, take, drop};
ghost use Rattle.std.specs.List.{list_all};
ghost use Rattle.edition.specs.Editions.{edition_of};
ghost use Rattle.event.specs.Decoded.{where_zero, all_zero, Decodes};

use edition::Edition;
use paper::events::{PICK, SWITCH, TICK};

// A tick; the pick of a node; switch k of selector s's current mode; none of these.
// No Option of the other three: the definition has all four, and asks first whether the run is over.
#[derive(Clone, Copy)]
pub enum Event {
    Tick,
    Pick(usize),
    Switch(usize, usize),
    Senseless,
}

// Are the bytes that an event does not use all 0?
fn all_zero(s: &[u8]) -> bool
    ensures { result ≡ list_all (λ b. b == 0) s.now }
{
    s.iter().all(|b| *b == 0)
}

// The event where the bytes that it does not use are 0.
fn unused(s: &[u8], e: Event) -> Event
    ensures { result ≡ where_zero (all_zero s.now) e }
{
    if all_zero(s) { e } else { Event::Senseless }
}

// The event of just its bytes.
fn decoded(s: &[u8], ed: Edition) -> Event
    requires { 3 ≤ length s.now }
    ensures { Decodes (edition_of ed) s.now result }
{
    match s[0] {
        TICK => unused(&s[1..], Event::Tick),
        PICK => unused(
            &s[1 + edition::width(ed)..],
            Event::Pick(codec::number(s, 1, ed)),
        ),
        SWITCH => unused(&s[3..], Event::Switch(usize::from(s[1]), usize::from(s[2]))),
        _ => Event::Senseless,
    }
}

// The event at a place of a list.
pub fn at(events: &[u8], at: usize, ed: Edition) -> Event
    requires { at + (edition_of ed).event_bytes ≤ length events.now }
    ensures { Decodes (edition_of ed) (take (edition_of ed).event_bytes (drop at events.now)) result }
{
    decoded(&events[at..at + edition::event_bytes(ed)], ed)
}
