// The table's bytes, field by field. Past the end a field is 0: an accepted table is not read there.
use edition::Edition;

// what is left of a part of the table
#[derive(Clone, Copy)]
pub struct Fields<'a> {
    rest: &'a [u8],
    ed: Edition,
}

impl<'a> Fields<'a> {
    pub fn of(bytes: &'a [u8], ed: Edition) -> Fields<'a> {
        Fields { rest: bytes, ed }
    }

    // the next n bytes as a part of their own, or what there is
    pub fn part(&mut self, n: usize) -> Fields<'a> {
        let (part, rest) = self.rest.split_at(n.min(self.rest.len()));
        self.rest = rest;
        Fields::of(part, self.ed)
    }

    fn array<const N: usize>(&mut self) -> [u8; N] {
        let Some((bytes, rest)) = self.rest.split_first_chunk::<N>() else {
            return [0; N];
        };
        self.rest = rest;
        *bytes
    }

    pub fn byte(&mut self) -> u8 {
        let Some((b, rest)) = self.rest.split_first() else {
            return 0;
        };
        self.rest = rest;
        *b
    }

    pub fn two(&mut self) -> u16 {
        u16::from_be_bytes(self.array())
    }

    pub fn signed(&mut self) -> i32 {
        i32::from_be_bytes(self.array())
    }

    // a count, a length or a node's number, as wide as the edition has it
    pub fn number(&mut self) -> usize {
        match self.ed {
            Edition::First => usize::from(self.byte()),
            Edition::Second => usize::from(self.two()),
        }
    }
}
