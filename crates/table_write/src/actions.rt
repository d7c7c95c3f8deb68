// The rows of the action section, for each node with an action: a length, node, kind, operand bytes.
ghost use Rattle.std.specs.Prelude.{◌≡◌, ◌+◌, ◌≤◌, ◌<◌, ◌∷◌, length};
ghost use Rattle.semantics.specs.Editions.{capacity};
ghost use Rattle.semantics.specs.TableFile.{write_action_row};
ghost use Rattle.edition.specs.Editions.{edition_of};
ghost use Rattle.table_write.specs.ActionTable.{row_head, row_at_place, rows_to, OperandOf, Operands, Listed, Measured};
ghost use Rattle.table_write.specs.Pieces.{Put};

use edition::Edition;
use numbering::spot::Spot;

// The actions of the nodes by their index: how many nodes, of each the kind of its action, 0 for none, and where its operand stands in the schedule section.
// The count stands beside slices that may be longer: numbering asks for the kinds' whole array.
#[derive(Clone, Copy)]
pub struct Actions<'a> {
    pub count: usize,
    pub kinds: &'a [u8],
    pub starts: &'a [usize],
    pub ends: &'a [usize],
}

// The bytes of a row before its operand: length, node and kind.
fn head(ed: Edition) -> usize
    ensures { (result ≡ row_head (edition_of ed)) × (result ≤ 5) }
{
    2 * edition::width(ed) + 1
}

// A row at a place; the next place.
fn put_row(body: &mut [u8], at: usize, n: usize, k: u8, operand: &[u8], ed: Edition) -> usize
    requires { (n < capacity (edition_of ed).width) × (length (k ∷ operand.now) ≤ 200) × (at + length (write_action_row (edition_of ed) n (k ∷ operand.now)) ≤ length body.old) }
    ensures { Put body.old at (write_action_row (edition_of ed) n (k ∷ operand.now)) body.new result }
{
    let l = operand.len() + 1 + edition::width(ed);
    let i = codec::put_number(body, at, l, ed);
    let j = codec::put_number(body, i, n, ed);
    let o = codec::put1(body, j, k);
    codec::put_slice(body, o, operand)
}

impl Actions<'_> {
    // How many nodes have an action, and the bytes of their rows.
    pub fn measured(self, ed: Edition) -> Spot
        requires { Listed (edition_of ed) self.kinds.now self.starts.now self.ends.now self.count }
        ensures { Measured (edition_of ed) self.entry.kinds.now self.entry.starts.now self.entry.ends.now self.entry.count result.count result.at }
    {
        let mut c = 0;
        let mut size = 0;
        for n in 0..self.count {
            if self.kinds[n] != 0 {
                c += 1;
                size += self.ends[n] - self.starts[n] + head(ed);
            }
        }
        Spot { count: c, at: size }
    }

    // Node n's row at a place, where it has an action; the next place.
    fn row(self, s: &[u8], n: usize, body: &mut [u8], at: usize, ed: Edition) -> usize
        requires in_index { OperandOf s.now self.kinds.now self.starts.now self.ends.now n × (n < capacity (edition_of ed).width) }
        requires room { at + length (row_at_place (edition_of ed) s.now self.kinds.now self.starts.now self.ends.now n) ≤ length body.old }
        ensures { Put body.old at (row_at_place (edition_of ed) s.now self.entry.kinds.now self.entry.starts.now self.entry.ends.now n) body.new result }
    {
        let k = self.kinds[n];
        if k == 0 {
            return at;
        }
        put_row(body, at, n, k, &s[self.starts[n]..self.ends[n]], ed)
    }

    // The rows of all nodes from a place on, reached or not; the next place.
    pub fn write(self, s: &[u8], body: &mut [u8], from: usize, ed: Edition) -> usize
        requires in_index { Operands (edition_of ed) s.now self.kinds.now self.starts.now self.ends.now self.count }
        requires room { from + length (rows_to (edition_of ed) s.now self.kinds.now self.starts.now self.ends.now self.count) ≤ length body.old }
        ensures { Put body.old from (rows_to (edition_of ed) s.now self.entry.kinds.now self.entry.starts.now self.entry.ends.now self.entry.count) body.new result }
    {
        let mut at = from;
        for n in 0..self.count {
            at = self.row(s, n, body, at, ed);
        }
        at
    }
}
