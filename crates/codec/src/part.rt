// A part of the bytes.
ghost use Rattle.std.specs.Prelude.{◌≡◌};
ghost use Rattle.codec.specs.Part.{part_of, Inside};

// from its start to its end
#[derive(Clone, Copy)]
pub struct Part {
    pub start: usize,
    pub end: usize,
}

impl Part {
    // the bytes that stand there
    pub fn of(self, s: &[u8]) -> &[u8]
        requires { Inside self s.now }
        ensures { result.now ≡ part_of self s.now }
    {
        &s[self.start..self.end]
    }
}
