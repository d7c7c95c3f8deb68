// A program as a run looks things up in it: one index, an array of named rows with places in the file, and one array of ranges and rates.
// A reader fills both; a run lends them as thin references and reads them through the functions below.
#![tactic(auto)]

pub mod kinds; // kinds.rt: the kinds of actions in it
pub mod fill; // fill.rt: how a reader fills them

ghost use Rattle.std.specs.Prelude.{◌≡◌, ◌+◌, ◌*◌, ◌<◌, length, get_or, pos};
ghost use Rattle.semantics.specs.Sections.{variable_limit, mode_limit};
ghost use Rattle.semantics.specs.TableFile.{location_limit};
ghost use Rattle.codec.specs.Parts.{part_at};
ghost use Rattle.program.specs.Lent.{Cut};
ghost use Rattle.program.specs.Rows.{kind_row, start_row, end_row, location_row, high_row, steady_row};

// The rows of an index, each of 256 entries but the last of 1,024: places of modes, kinds of actions, starts and ends of operands, places of locations.
const KINDS: usize = 256;

const STARTS: usize = 512;

const ENDS: usize = 768;

const LOCATIONS: usize = 1024;

pub const ENTRIES: usize = 2048;

// The rows of ranges and rates, each of 32: minima, maxima, rates of kind 1.
const HIGHS: usize = paper::VARIABLES;

const STEADY: usize = 2 * paper::VARIABLES;

pub const RANGES: usize = 3 * paper::VARIABLES;

// What a run looks things up in: the bytes of the schedule file or table, the index, and the array of ranges and rates.
#[derive(Clone, Copy)]
pub struct Program<'a> {
    pub bytes: &'a [u8],
    pub index: &'a [usize; ENTRIES],
    pub ranges: &'a [i32; RANGES],
}

impl<'a> Program<'a> {
    // where a mode of a selector stands
    pub fn mode_place(&self, selector: usize, mode: u8) -> usize
        requires { mode_limit * selector + mode < length self.now.index.now }
        ensures { result ≡ get_or self.now.index.now (mode_limit * selector + mode) 0 }
    {
        // for the proof: a place in a slice is below its length
        let index = self.index;
        let row: &[usize] = index;
        row[paper::MODES * selector + usize::from(mode)]
    }

    // the kind of node n's action, as in a table
    pub fn kind(&self, n: usize) -> usize
        requires { n < 256 }
        ensures { result ≡ get_or (kind_row self.now.index.now) n 0 }
    {
        self.index[KINDS + n]
    }

    // where the operand of node n starts
    pub fn start(&self, n: usize) -> usize
        requires { n < 256 }
        ensures { result ≡ get_or (start_row self.now.index.now) n 0 }
    {
        self.index[STARTS + n]
    }

    // where it ends
    pub fn end(&self, n: usize) -> usize
        requires { n < 256 }
        ensures { result ≡ get_or (end_row self.now.index.now) n 0 }
    {
        self.index[ENDS + n]
    }

    // the operand of node n
    pub fn operand(&self, n: usize) -> &'a [u8]
        requires { (n < 256) × Cut self.now.bytes.now (start_row self.now.index.now) (end_row self.now.index.now) n }
        ensures { result.now ≡ part_at self.now.bytes.now (start_row self.now.index.now) (end_row self.now.index.now) n }
    {
        &self.bytes[self.start(n)..self.end(n)]
    }

    // where location x stands
    pub fn location(&self, x: usize) -> usize
        requires { x < location_limit }
        ensures { result ≡ get_or (location_row self.now.index.now) x 0 }
    {
        self.index[LOCATIONS + x]
    }

    // the least value of variable v
    pub fn low(&self, v: usize) -> i32
        requires { v < variable_limit }
        ensures { result ≡ get_or self.now.ranges.now v (pos 0) }
    {
        self.ranges[v]
    }

    // the greatest
    pub fn high(&self, v: usize) -> i32
        requires { v < variable_limit }
        ensures { result ≡ get_or (high_row self.now.ranges.now) v (pos 0) }
    {
        self.ranges[HIGHS + v]
    }

    // the rates of kind 1
    pub fn steady(&self) -> [i32; paper::VARIABLES]
        ensures { result ≡ steady_row self.now.ranges.now }
    {
        // for the proof: as a slice its length is known
        let ranges = self.ranges;
        let all: &[i32] = ranges;
        // entry by entry: few moves, where copy_from_slice makes a call
        let mut rates = [0; paper::VARIABLES];
        for v in 0..paper::VARIABLES {
            rates[v] = all[STEADY + v];
        }
        rates
    }
}
