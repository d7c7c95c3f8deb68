// The header of a table, and where its four sections stand (15, 16).
ghost use Rattle.std.specs.Prelude.{◌≡◌, ◌≤◌, length, drop, ok_or};
ghost use Rattle.edition.specs.Editions.{edition_of};
ghost use Rattle.semantics.specs.Refusals.{need};
ghost use Rattle.semantics.specs.TableFile.{table_sections_in};
ghost use Rattle.semantics.specs.Tables.{table_header, judge_table_layout};
ghost use Rattle.paper.specs.Refusals.{judged_of, answered};
ghost use Rattle.paper.specs.declared.refusals.Refusal.TheVariants.{TableSections};
ghost use Rattle.table_read.specs.TableParts.{parts_in};

use codec::part::Part;
use edition::Edition;
use paper::refusals::Refusal;

// where each section stands
#[derive(Clone, Copy)]
pub struct Parts {
    pub variables: Part,
    pub equations: Part,
    pub actions: Part,
    pub locations: Part,
}

fn header(t: &[u8], ed: Edition) -> bool
    ensures { result ≡ table_header (edition_of ed) t.now }
{
    if t.len() < 5 {
        return false;
    }
    if t[0] != edition::version(ed) {
        return false;
    }
    codec::nat4(t, 1) == t.len()
}

// after the header
fn stand(t: &[u8]) -> Option<Parts>
    requires { 5 ≤ length t.now }
    ensures { judged_of (ok_or result TableSections) ≡ answered parts_in (need 16 (table_sections_in (drop 5 t.now))) }
{
    let v = codec::end2(t, 5)?;
    let e = codec::end2(t, v)?;
    let a = codec::end2(t, e)?;
    let l = codec::end4(t, a)?;
    if l < t.len() {
        return None;
    }
    Some(Parts {
        variables: Part { start: 7, end: v },
        equations: Part {
            start: v + 2,
            end: e,
        },
        actions: Part {
            start: e + 2,
            end: a,
        },
        locations: Part {
            start: a + 4,
            end: l,
        },
    })
}

pub fn read(t: &[u8], ed: Edition) -> Result<Parts, Refusal>
    ensures { judged_of result ≡ answered parts_in (judge_table_layout (edition_of ed) t.now) }
{
    if !header(t, ed) {
        return Err(Refusal::TableHeader);
    }
    stand(t).ok_or(Refusal::TableSections)
}
