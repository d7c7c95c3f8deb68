// One reader carries the lent file and its place from section to section: document 01 names this form, thin functions over one with plain
// parameters, codec's `end2`.
ghost use Rattle.std.specs.Prelude.{◌≡◌, ◌≤◌, length};
ghost use Rattle.codec.specs.declared.part.Part.{Part};
ghost use Rattle.schedule_read.specs.Sections.{section_at, SectionsRead};

use super::parts::Parts;
use codec::part::Part;

// the file, and where the next section starts
#[derive(Clone, Copy)]
pub struct Reader<'a> {
    file: &'a [u8],
    at: usize,
}

impl<'a> Reader<'a> {
    // the section that the reader stands before; it goes behind it
    fn next(&mut self) -> Option<Part>
        requires { self.old.at ≤ length self.old.file.now }
        ensures same { self.new.file.now ≡ self.old.file.now }
        ensures part { result ≡ section_at self.old.file.now self.old.at }
        ensures behind { (p : Part) → result ≡ Some p → self.new.at ≡ p.end }
    {
        let end = codec::end2(self.file, self.at)?;
        let part = Part {
            start: self.at + 2,
            end,
        };
        self.at = end;
        Some(part)
    }
}

// the three sections behind the header of 3 bytes, where they fill the file
pub fn sections(file: &[u8]) -> Option<Parts>
    requires { 3 ≤ length file.now }
    ensures { SectionsRead file.now result }
{
    let mut r = Reader { file, at: 3 };
    let variables = r.next()?;
    let equations = r.next()?;
    let schedule = r.next()?;
    if r.at < file.len() {
        return None;
    }
    Some(Parts {
        variables,
        equations,
        schedule,
    })
}
