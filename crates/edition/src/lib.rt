// The editions of the formats, and what differs between them: code that depends on it takes an edition and asks here.
// Request 7's bytes of a variable and of a constant belong here as well.
#![tactic(auto)]

ghost use Rattle.std.specs.Prelude.{◌≡◌, ◌+◌, ◌*◌, ◌≤◌};
ghost use Rattle.semantics.specs.Bytes.{width_of};
ghost use Rattle.semantics.specs.Editions.{edition_in};
ghost use Rattle.edition.specs.Editions.{edition_of};

// The most nodes of any edition: arrays by node are so long.
pub const NODES: usize = 256;

const FIRST_VERSION: u8 = 1;

const SECOND_VERSION: u8 = 2;

// An enum and no struct of numbers: every value of it is an edition.
#[derive(Clone, Copy)]
pub enum Edition {
    First,
    Second,
}

// The edition of a file or table, by its byte 0. Bytes of none are taken for the first edition, which refuses them.
pub fn of(bytes: &[u8]) -> Edition
    ensures { edition_of result ≡ edition_in bytes.now }
{
    if bytes.len() == 0 {
        return Edition::First;
    }
    if bytes[0] == SECOND_VERSION {
        return Edition::Second;
    }
    Edition::First
}

// byte 0 of a file and of a table
pub fn version(e: Edition) -> u8
    ensures { result ≡ (edition_of e).version }
{
    match e {
        Edition::First => FIRST_VERSION,
        Edition::Second => SECOND_VERSION,
    }
}

// the bytes of a node count, an action count, a node's number, a node's length and an action's length
pub fn width(e: Edition) -> usize
    ensures { result ≡ width_of (edition_of e).width }
{
    match e {
        Edition::First => 1,
        Edition::Second => 2,
    }
}

// nodes are numbered below this
pub fn node_limit(e: Edition) -> usize
    ensures { result ≡ (edition_of e).nodes }
{
    match e {
        Edition::First => 64,
        Edition::Second => 256,
    }
}

// the words of 8 bytes of a record's set of acting nodes
pub fn set_words(e: Edition) -> usize
    ensures { (8 * result ≡ (edition_of e).set_bytes) × (result ≤ 4) }
{
    match e {
        Edition::First => 1,
        Edition::Second => 4,
    }
}

// the bytes of that set
pub fn set_bytes(e: Edition) -> usize
    ensures { result ≡ (edition_of e).set_bytes }
{
    match e {
        Edition::First => 8,
        Edition::Second => 32,
    }
}

pub fn event_bytes(e: Edition) -> usize
    ensures { result ≡ (edition_of e).event_bytes }
{
    match e {
        Edition::First => 3,
        Edition::Second => 4,
    }
}

// of an entry of a table's location: its node and two targets of two bytes each
pub fn entry_bytes(e: Edition) -> usize
    ensures { result ≡ width_of (edition_of e).width + 4 }
{
    width(e) + 4
}
