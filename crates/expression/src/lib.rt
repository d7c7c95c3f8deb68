// Numbers and truths: judged from their bytes (condition 12) and evaluated.
#![tactic(auto)]

ghost use Rattle.std.specs.Prelude.{◌≡◌, List, ◌≤◌, length, ℤ, neg_ℤ, Bool, ◌-◌, Ok, Some};
ghost use Rattle.semantics.specs.Bytes.{is_some};
ghost use Rattle.semantics.specs.Editions.{Edition};
ghost use Rattle.semantics.specs.Expressions.{Value, applied, compared, connected, result as in_range};
ghost use Rattle.semantics.specs.Expressions.{operate_values, negate_value, compare_values, connect_values, oppose_value};
ghost use Rattle.semantics.specs.Expressions.{a_constant, a_variable, depth_limit, number_in, truth_in};
ghost use Rattle.semantics.specs.Sections.{variable_limit};
ghost use Rattle.expression.specs.Answers.{number_answer, truth_answer, NumberSays, TruthSays};
ghost use Rattle.expression.specs.Evaluation.{said, known, FindsNumber, FindsTruth, FindsForm, NumberAt, TruthAt};
ghost use Rattle.expression.specs.Forms.{operation_is, comparison_is, connective_is, FormSays};

// the fewest bytes of a form of two leaves: its code and two variables
const TWO_LEAVES: usize = 5;

// A result that does not lie in its range lies above or below it.
#[derive(Clone, Copy, PartialEq, Eq)]
pub enum Side {
    Above,
    Below,
}

// The forms of two operands.
#[derive(Clone, Copy)]
enum Operation {
    Sum,
    Difference,
    Product,
}

#[derive(Clone, Copy)]
enum Comparison {
    AtMost,
    Less,
    Equal,
    Unequal,
}

#[derive(Clone, Copy)]
enum Connective {
    Both,
    Either,
}

// What a first byte says: everything that follows it goes by this.
#[derive(Clone, Copy)]
enum Form {
    Constant,
    Variable,
    Operation(Operation),
    Negation,
    Comparison(Comparison),
    Connective(Connective),
    Opposite,
    True,
    Unknown,
}

// The one match over the codes: ranges for number forms, truth forms and the bytes that are no code. The two functions below tell the forms
// of a range apart, and no other function of this crate looks at a code. The leaves stand alone, so that LLVM makes a jump of them.
fn form_of(code: u8) -> Form
    ensures { FormSays code result }
{
    match code {
        // numbers
        0x01 => Form::Constant,
        0x02 => Form::Variable,
        0x10..=0x14 => number_form(code),
        // truths
        0x20..=0x2f => truth_form(code),
        // the bytes that are no code
        0x00 | 0x03..=0x0f | 0x15..=0x1f | 0x30..=0xff => Form::Unknown,
    }
}

// Among the numbers with operands.
fn number_form(code: u8) -> Form
    requires { (0x10 ≤ code) × (code ≤ 0x14) }
    ensures { FormSays code result }
{
    match code {
        0x10 => Form::Operation(Operation::Sum),
        0x11 => Form::Operation(Operation::Difference),
        0x12 => Form::Operation(Operation::Product),
        0x14 => Form::Negation,
        0x00..=0x0f | 0x13 | 0x15..=0xff => Form::Unknown,
    }
}

// Among the truths.
fn truth_form(code: u8) -> Form
    requires { (0x20 ≤ code) × (code ≤ 0x2f) }
    ensures { FormSays code result }
{
    match code {
        0x20 => Form::Comparison(Comparison::AtMost),
        0x21 => Form::Comparison(Comparison::Less),
        0x22 => Form::Comparison(Comparison::Equal),
        0x23 => Form::Comparison(Comparison::Unequal),
        0x28 => Form::Connective(Connective::Both),
        0x29 => Form::Connective(Connective::Either),
        0x2a => Form::Opposite,
        0x2f => Form::True,
        0x00..=0x1f | 0x24..=0x27 | 0x2b..=0x2e | 0x30..=0xff => Form::Unknown,
    }
}

// The value of the bytes, or the side on which a result lies; None where condition 12 turns them away. A leaf and an operation on two
// leaves take no recursion.
pub fn number_value(s: &[u8], vars: &[i32]) -> Option<Result<i32, Side>>
    ensures { (ed : Edition) → NumberSays vars.now (number_in ed (length vars.now) s.now) result }
{
    if let Some(z) = single(s, vars) {
        return Some(Ok(z));
    }
    if let Some(value) = operating(s, vars) {
        return Some(value);
    }
    let (value, n) = number(s, vars, 0, paper::DEPTH)?;
    if n == s.len() { Some(value) } else { None }
}

// The same of a truth. Most are a comparison of two leaves, or two of them joined: these take no recursion.
pub fn truth_value(s: &[u8], vars: &[i32]) -> Option<Result<bool, Side>>
    ensures { (ed : Edition) → TruthSays vars.now (truth_in ed (length vars.now) s.now) result }
{
    match comparing(s, vars) {
        Some(b) => Some(Ok(b)),
        None => no_comparison(s, vars),
    }
}

// Condition 12 of a number, where so many variables are declared.
pub fn number_reads(s: &[u8], variables: usize) -> bool
    requires { variables ≤ variable_limit }
    ensures { (ed : Edition) → result ≡ is_some (number_in ed variables s.now) }
{
    let zeros = [0i32; paper::VARIABLES];
    number_value(s, &zeros[..variables]).is_some()
}

// Condition 12 of a truth.
pub fn truth_reads(s: &[u8], variables: usize) -> bool
    requires { variables ≤ variable_limit }
    ensures { (ed : Edition) → result ≡ is_some (truth_in ed variables s.now) }
{
    let zeros = [0i32; paper::VARIABLES];
    truth_value(s, &zeros[..variables]).is_some()
}

// A leaf alone; None for any other bytes.
fn single(s: &[u8], vars: &[i32]) -> Option<i32>
    ensures { (ed : Edition) (z : ℤ) → result ≡ Some z → Some (Ok z) ≡ number_answer vars.now (number_in ed (length vars.now) s.now) }
{
    let (z, n) = leaf(s, vars, 0)?;
    if n == s.len() { Some(z) } else { None }
}

// An operation on two leaves; None for any other bytes.
fn operating(s: &[u8], vars: &[i32]) -> Option<Result<i32, Side>>
    ensures { (ed : Edition) (v : _) → result ≡ Some v → Some v ≡ number_answer vars.now (number_in ed (length vars.now) s.now) }
{
    if s.len() < TWO_LEAVES {
        return None;
    }
    let Form::Operation(o) = form_of(s[0]) else {
        return None;
    };
    let (a, m) = leaf(s, vars, 1)?;
    let (b, n) = leaf(s, vars, m)?;
    if n == s.len() {
        Some(arithmetic(o, a, b))
    } else {
        None
    }
}

// A comparison of two leaves; None for any other bytes. It does not go through `compared_at`, so that LLVM inlines it. Its length is
// tested at once, which spares a test at the first leaf.
fn comparing(s: &[u8], vars: &[i32]) -> Option<bool>
    ensures { (ed : Edition) (b : Bool) → result ≡ Some b → Some (Ok b) ≡ truth_answer vars.now (truth_in ed (length vars.now) s.now) }
{
    if s.len() < TWO_LEAVES {
        return None;
    }
    let Form::Comparison(o) = form_of(s[0]) else {
        return None;
    };
    let (a, m) = leaf(s, vars, 1)?;
    let (b, n) = leaf(s, vars, m)?;
    if n == s.len() {
        Some(compare(o, a, b))
    } else {
        None
    }
}

// Two comparisons of leaves, joined; None for any other bytes.
fn joining(s: &[u8], vars: &[i32]) -> Option<bool>
    ensures { (ed : Edition) (b : Bool) → result ≡ Some b → Some (Ok b) ≡ truth_answer vars.now (truth_in ed (length vars.now) s.now) }
{
    if s.len() == 0 {
        return None;
    }
    let Form::Connective(o) = form_of(s[0]) else {
        return None;
    };
    let (a, m) = compared_at(s, vars, 1)?;
    let (b, n) = compared_at(s, vars, m)?;
    if n == s.len() {
        Some(connect(o, a, b))
    } else {
        None
    }
}

// A comparison of two leaves at a position, and the position after it; None for any other bytes.
fn compared_at(s: &[u8], vars: &[i32], at: usize) -> Option<(bool, usize)>
    ensures { (ed : Edition) (b : Bool) (n : _) → result ≡ Some (b, n) → TruthAt ed vars.now s.now at (depth_limit - 1) (Ok b) n }
{
    if s.len() <= at {
        return None;
    }
    let Form::Comparison(o) = form_of(s[at]) else {
        return None;
    };
    let (a, m) = leaf(s, vars, at + 1)?;
    let (b, n) = leaf(s, vars, m)?;
    Some((compare(o, a, b), n))
}

// A truth of any form: where it is no comparison of two leaves, `truth_value` asks here.
fn no_comparison(s: &[u8], vars: &[i32]) -> Option<Result<bool, Side>>
    ensures { (ed : Edition) → TruthSays vars.now (truth_in ed (length vars.now) s.now) result }
{
    if let Some(b) = joining(s, vars) {
        return Some(Ok(b));
    }
    let (value, n) = truth(s, vars, 0, paper::DEPTH)?;
    if n == s.len() { Some(value) } else { None }
}

// A constant or a variable at a position, and the position after it; None where there is none.
fn leaf(s: &[u8], vars: &[i32], at: usize) -> Option<(i32, usize)>
    ensures { (z : ℤ) (n : _) → result ≡ Some (z, n) → (ed : Edition) (depth : _) → (depth ≡ 0 → ⊥) → NumberAt ed vars.now s.now at depth (Ok z) n }
{
    if s.len() <= at {
        return None;
    }
    match form_of(s[at]) {
        Form::Constant => constant(s, at + 1),
        Form::Variable => variable(s, vars, at + 1),
        _ => None,
    }
}

// The number at a position, of at most this depth, and the position after it. What an operand faults with does not end the reading: the
// other one may be no number at all.
fn number(s: &[u8], vars: &[i32], at: usize, depth: usize) -> Option<(Result<i32, Side>, usize)>
    ensures { (ed : Edition) → FindsNumber ed vars.now s.now at depth result }
{
    if depth == 0 {
        return None;
    }
    if s.len() <= at {
        return None;
    }
    let next = at + 1;
    let left = depth - 1;
    match form_of(s[at]) {
        Form::Constant => unfaulted(constant(s, next)),
        Form::Variable => unfaulted(variable(s, vars, next)),
        Form::Operation(o) => {
            let (l, m) = number(s, vars, next, left)?;
            let (r, n) = number(s, vars, m, left)?;
            Some((operate(o, l, r), n))
        }
        Form::Negation => {
            let (a, n) = number(s, vars, next, left)?;
            Some((negate(a), n))
        }
        _ => None,
    }
}

// The same of a truth.
fn truth(s: &[u8], vars: &[i32], at: usize, depth: usize) -> Option<(Result<bool, Side>, usize)>
    ensures { (ed : Edition) → FindsTruth ed vars.now s.now at depth result }
{
    if depth == 0 {
        return None;
    }
    if s.len() <= at {
        return None;
    }
    let next = at + 1;
    let left = depth - 1;
    match form_of(s[at]) {
        Form::Comparison(o) => {
            let (l, m) = number(s, vars, next, left)?;
            let (r, n) = number(s, vars, m, left)?;
            Some((relate(o, l, r), n))
        }
        Form::Connective(o) => {
            let (l, m) = truth(s, vars, next, left)?;
            let (r, n) = truth(s, vars, m, left)?;
            Some((join(o, l, r), n))
        }
        Form::Opposite => {
            let (a, n) = truth(s, vars, next, left)?;
            Some((oppose(a), n))
        }
        Form::True => Some((Ok(true), next)),
        _ => None,
    }
}

// A leaf's value, which does not fault.
fn unfaulted(leaf: Option<(i32, usize)>) -> Option<(Result<i32, Side>, usize)>
    ensures { result ≡ known leaf }
{
    let (z, n) = leaf?;
    Some((Ok(z), n))
}

// The forms, on the values of their operands: the left operand's fault comes first.
fn operate(o: Operation, l: Result<i32, Side>, r: Result<i32, Side>) -> Result<i32, Side>
    ensures { (a b : Value ℤ) → l ≡ said a → r ≡ said b → result ≡ said (operate_values (operation_is o) a b) }
{
    arithmetic(o, l?, r?)
}

fn relate(o: Comparison, l: Result<i32, Side>, r: Result<i32, Side>) -> Result<bool, Side>
    ensures { (a b : Value ℤ) → l ≡ said a → r ≡ said b → result ≡ said (compare_values (comparison_is o) a b) }
{
    Ok(compare(o, l?, r?))
}

fn join(o: Connective, l: Result<bool, Side>, r: Result<bool, Side>) -> Result<bool, Side>
    ensures { (a b : Value Bool) → l ≡ said a → r ≡ said b → result ≡ said (connect_values (connective_is o) a b) }
{
    Ok(connect(o, l?, r?))
}

fn negate(z: Result<i32, Side>) -> Result<i32, Side>
    ensures { (a : Value ℤ) → z ≡ said a → result ≡ said (negate_value a) }
{
    negative(z?)
}

fn oppose(b: Result<bool, Side>) -> Result<bool, Side>
    ensures { (a : Value Bool) → b ≡ said a → result ≡ said (oppose_value a) }
{
    Ok(!b?)
}

// The operations on numbers. A result is worked out in 64 bits and must lie in 32.
fn arithmetic(o: Operation, a: i32, b: i32) -> Result<i32, Side>
    ensures { result ≡ said (in_range (applied (operation_is o) a b)) }
{
    let x = a as i64;
    let y = b as i64;
    match o {
        Operation::Sum => ranged(x + y),
        Operation::Difference => ranged(x - y),
        Operation::Product => ranged(x * y),
    }
}

fn negative(a: i32) -> Result<i32, Side>
    ensures { result ≡ said (in_range (neg_ℤ a)) }
{
    ranged(-(a as i64))
}

fn ranged(x: i64) -> Result<i32, Side>
    ensures { result ≡ said (in_range x) }
{
    if x < -2147483648 {
        return Err(Side::Below);
    }
    if 2147483647 < x {
        return Err(Side::Above);
    }
    Ok(x as i32)
}

fn compare(o: Comparison, a: i32, b: i32) -> bool
    ensures { result ≡ compared (comparison_is o) a b }
{
    match o {
        Comparison::AtMost => a <= b,
        Comparison::Less => a < b,
        Comparison::Equal => a == b,
        Comparison::Unequal => a != b,
    }
}

fn connect(o: Connective, a: bool, b: bool) -> bool
    ensures { result ≡ connected (connective_is o) a b }
{
    match o {
        Connective::Both => a & b,
        Connective::Either => a | b,
    }
}

// The forms without operands, behind their code: the value, and the position after it.
fn constant(s: &[u8], at: usize) -> Option<(i32, usize)>
    requires { at ≤ length s.now }
    ensures { (ed : Edition) (vs : List ℤ) → FindsForm ed vs s.now a_constant at (known result) }
{
    if s.len() - at < 4 {
        return None;
    }
    Some((codec::int4(s, at), at + 4))
}

fn variable(s: &[u8], vars: &[i32], at: usize) -> Option<(i32, usize)>
    ensures { (ed : Edition) → FindsForm ed vars.now s.now a_variable at (known result) }
{
    if s.len() <= at {
        return None;
    }
    let i = usize::from(s[at]);
    if vars.len() <= i {
        return None;
    }
    Some((vars[i], at + 1))
}
