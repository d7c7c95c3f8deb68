// The header of a schedule file, and where its three sections stand (1, 2, 3).
ghost use Rattle.std.specs.Prelude.{◌≡◌, ◌≤◌, length};
ghost use Rattle.edition.specs.Editions.{edition_of};
ghost use Rattle.paper.specs.Refusals.{judged_of, answered};
ghost use Rattle.schedules.specs.Files.{file_header, file_length, judge_file_layout};
ghost use Rattle.schedule_read.specs.FileParts.{parts_in};

use super::reader;
use codec::part::Part;
use edition::Edition;
use paper::refusals::Refusal;

#[derive(Clone, Copy)]
pub struct Parts {
    pub variables: Part,
    pub equations: Part,
    pub schedule: Part,
}

fn header(file: &[u8], ed: Edition) -> bool
    ensures { result ≡ file_header (edition_of ed) file.now }
{
    file.len() >= 3 && file[0] == edition::version(ed)
}

fn length_field(file: &[u8]) -> bool
    requires { 3 ≤ length file.now }
    ensures { result ≡ file_length file.now }
{
    codec::nat2(file, 1) == file.len()
}

pub fn read(file: &[u8], ed: Edition) -> Result<Parts, Refusal>
    ensures { judged_of result ≡ answered parts_in (judge_file_layout (edition_of ed) file.now) }
{
    if !header(file, ed) {
        return Err(Refusal::Header);
    }
    if !length_field(file) {
        return Err(Refusal::FileLength);
    }
    reader::sections(file).ok_or(Refusal::FileSections)
}
