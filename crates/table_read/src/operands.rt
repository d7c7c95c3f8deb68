// The operands of a table's actions (18; "11 and 12 judge operands").
ghost use Rattle.std.specs.Prelude.{◌≡◌, List, ℕ, ◌≤◌, length};
ghost use Rattle.edition.specs.Editions.{edition_of};
ghost use Rattle.semantics.specs.Editions as papers;
ghost use Rattle.semantics.specs.Sections.{Selector};
ghost use Rattle.semantics.specs.TableFile.{an_assignment, a_switch, action_kind, action_of_kind};
ghost use Rattle.plant.specs.ModeCounts.{ModesAt};
ghost use Rattle.table_read.specs.ActionIndex.{Indexes};
ghost use Rattle.table_read.specs.OperandForms.{fits_here, AllFit};

use super::actions::Actions;
use edition::Edition;

// a variable, then a number
fn assigns(b: &[u8], variables: usize) -> bool
    requires { variables ≤ 32 }
    ensures { (ed : papers.Edition) (cs : List Selector) → result ≡ fits_here ed variables cs (action_of_kind an_assignment b.now) }
{
    if b.len() < 1 {
        return true;
    }
    if usize::from(b[0]) >= variables {
        return false;
    }
    expression::number_reads(&b[1..], variables)
}

// a selector, then a mode
fn switches(b: &[u8], selectors: usize, modes: &[usize]) -> bool
    requires { selectors ≤ length modes.now }
    ensures { (ed : papers.Edition) (cs : List Selector) → ModesAt modes.now selectors cs → (variables : ℕ) →
        result ≡ fits_here ed variables cs (action_of_kind a_switch b.now) }
{
    if b.len() != 2 {
        return true;
    }
    plant::selectors::mode_exists(usize::from(b[0]), usize::from(b[1]), selectors, modes)
}

// one operand; true where the kind is none or the operand has not its form
fn fits(k: u8, b: &[u8], variables: usize, selectors: usize, modes: &[usize]) -> bool
    requires { (variables ≤ 32) × (selectors ≤ length modes.now) }
    ensures { (ed : papers.Edition) (cs : List Selector) → ModesAt modes.now selectors cs → result ≡ fits_here ed variables cs (action_of_kind (action_kind k) b.now) }
{
    match k {
        paper::actions::TEST => expression::truth_reads(b, variables),
        paper::actions::WAIT => expression::truth_reads(b, variables),
        paper::actions::ASSIGN => assigns(b, variables),
        paper::actions::SWITCH => switches(b, selectors, modes),
        _ => true,
    }
}

// acts is the index of s; modes[j] is how many modes selector j has
pub fn read(
    s: &[u8],
    acts: Actions,
    variables: usize,
    selectors: usize,
    modes: &[usize],
    ed: Edition,
) -> bool
    requires { Indexes (edition_of ed) s.now acts × (variables ≤ 32) × (selectors ≤ length modes.now) }
    ensures { AllFit (edition_of ed) s.now variables selectors modes.now result }
{
    for i in 0..edition::node_limit(ed) {
        let b = acts.starts[i];
        let e = acts.ends[i];
        if !fits(acts.kinds[i], &s[b..e], variables, selectors, modes) {
            return false;
        }
    }
    true
}
