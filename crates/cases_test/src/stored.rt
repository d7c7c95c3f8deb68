// A case as it is stored: the call, a name, five strings, what is lent, what the call returns.
use std::fmt;
use std::io::Read;

// as many numbers as a call returns at most
pub const NUMBERS: usize = 8;

// no table and no records are longer
pub const ROOM: usize = 420000;

// the length that stands for the string of the case before
const AS_BEFORE: u32 = 4294967295;

#[derive(Clone, Copy, PartialEq, Eq)]
pub enum Call {
    Read,
    ReadTable,
    Size,
    Compile,
    Rules,
    ByTable,
    Examine,
}

impl Call {
    fn of(number: u8) -> Option<Call> {
        match number {
            1 => Some(Call::Read),
            2 => Some(Call::ReadTable),
            3 => Some(Call::Size),
            4 => Some(Call::Compile),
            5 => Some(Call::Rules),
            6 => Some(Call::ByTable),
            7 => Some(Call::Examine),
            _ => None,
        }
    }

    // how many numbers it returns
    pub fn count(self) -> usize {
        match self {
            Call::Size | Call::Compile => 2,
            Call::Read | Call::Rules | Call::ByTable => 3,
            Call::ReadTable => 4,
            Call::Examine => NUMBERS,
        }
    }
}

impl fmt::Display for Call {
    fn fmt<W: fmt::Write>(&self, f: &mut fmt::Formatter<W>) -> fmt::Result {
        match self {
            Call::Read => f.write_str("read"),
            Call::ReadTable => f.write_str("read table"),
            Call::Size => f.write_str("size"),
            Call::Compile => f.write_str("compile"),
            Call::Rules => f.write_str("rules"),
            Call::ByTable => f.write_str("by table"),
            Call::Examine => f.write_str("examine"),
        }
    }
}

// A string at the front of a buffer, which keeps it for the next case. Nothing is allocated here, so that the length stands beside the bytes.
#[derive(Drop)]
pub struct Kept<const N: usize> {
    bytes: [u8; N],
    length: usize,
}

impl<const N: usize> Kept<N> {
    fn new() -> Kept<N> {
        Kept {
            bytes: [0; N],
            length: 0,
        }
    }

    pub fn bytes(&self) -> &[u8] {
        output::front(self.length, &self.bytes)
    }

    // the next n bytes, if there are so many and they have room
    fn fill(&mut self, from: &mut impl Read, n: usize) -> Option<()> {
        if n > N {
            return None;
        }
        from.read_exact(&mut self.bytes[..n]).ok()?;
        self.length = n;
        Some(())
    }

    // a string, its length first
    fn read(&mut self, from: &mut impl Read) -> Option<()> {
        let n = number(from)?;
        if n == AS_BEFORE {
            return Some(());
        }
        self.fill(from, n as usize)
    }
}

#[derive(Drop)]
pub struct Strings {
    pub name: Kept<255>,
    pub file: Kept<65600>,
    pub table: Kept<ROOM>,
    pub start: Kept<200>,
    pub events: Kept<30100>,
    pub records: Kept<ROOM>,
}

impl Strings {
    // before the first case: every string is empty
    pub fn new() -> Strings {
        Strings {
            name: Kept::new(),
            file: Kept::new(),
            table: Kept::new(),
            start: Kept::new(),
            events: Kept::new(),
            records: Kept::new(),
        }
    }

    fn read(&mut self, from: &mut impl Read) -> Option<()> {
        let n = byte(from)?;
        self.name.fill(from, usize::from(n))?;
        self.file.read(from)?;
        self.table.read(from)?;
        self.start.read(from)?;
        self.events.read(from)?;
        self.records.read(from)
    }
}

// a case but for its strings
#[derive(Clone, Copy)]
pub struct Case {
    pub call: Call,
    // how many bytes are lent
    pub table_room: usize,
    pub record_room: usize,
    pub other_room: usize,
    // what the call returns
    pub refusal: u8,
    pub numbers: [usize; NUMBERS],
}

fn byte(from: &mut impl Read) -> Option<u8> {
    let mut b = [0u8; 1];
    from.read_exact(&mut b).ok()?;
    Some(b[0])
}

fn number(from: &mut impl Read) -> Option<u32> {
    let mut b = [0u8; 4];
    from.read_exact(&mut b).ok()?;
    Some(u32::from_be_bytes(b))
}

fn numbers(from: &mut impl Read) -> Option<[usize; NUMBERS]> {
    let mut all = [0; NUMBERS];
    for n in &mut all {
        *n = number(from)? as usize;
    }
    Some(all)
}

// how many bytes are lent, no more than there is room for
fn room(from: &mut impl Read) -> Option<usize> {
    let n = number(from)? as usize;
    if n <= ROOM { Some(n) } else { None }
}

impl Case {
    // what follows the number of its call; none where it is not there to its last number, or something in it is too long
    fn read(number: u8, from: &mut impl Read, strings: &mut Strings) -> Option<Case> {
        let call = Call::of(number)?;
        strings.read(from)?;
        Some(Case {
            call,
            table_room: room(from)?,
            record_room: room(from)?,
            other_room: room(from)?,
            refusal: byte(from)?,
            numbers: numbers(from)?,
        })
    }
}

// where the list is no list of cases
#[derive(Clone, Copy)]
pub struct Malformed;

// the next case, or none at the end of the list
pub fn next(from: &mut impl Read, strings: &mut Strings) -> Result<Option<Case>, Malformed> {
    match byte(from) {
        Some(number) => match Case::read(number, from, strings) {
            Some(case) => Ok(Some(case)),
            None => Err(Malformed),
        },
        None => Ok(None),
    }
}
