// Decimal numbers in the arguments of a program.
#![tactic(auto)]

ghost use Rattle.std.specs.Prelude.{◌≡◌, true, cond, leb, ◌+◌, ◌*◌, Some, None};
ghost use Rattle.std.specs.List.{list_all};
ghost use Rattle.std.specs.Char.{is_ascii_digit};
ghost use Rattle.std.proofs.Math.Option.{some};
ghost use Rattle.semantics.specs.Bytes.{every};
ghost use Rattle.decimal.specs.Decimal.{is_digit, value_from, decimal_in};
ghost use Rattle.decimal.specs.Parsing.{parsed_of};

const BASE: u64 = 10;

// Why an argument is not read: it is no decimal number, or one above the largest that is asked for.
#[derive(Clone, Copy, PartialEq, Eq)]
pub enum Misread {
    NotDecimal,
    TooLarge,
}

fn all_digits(s: &[u8]) -> bool
    ensures { result ≡ list_all is_ascii_digit s.now }
{
    s.iter().all(|b| b.is_ascii_digit())
}

// A number and one digit behind it, up to `most`.
fn appended(n: u64, digit: u64, most: u64) -> Option<u64>
    ensures { result ≡ cond (leb (n * 10 + digit) most) (Some (n * 10 + digit)) None }
{
    let next = n.checked_mul(BASE)?.checked_add(digit)?;
    if next <= most { Some(next) } else { None }
}

// The number that the digits stand for.
fn value(s: &[u8], most: u64) -> Result<u64, Misread>
    requires { every is_digit s.now ≡ true }
    ensures { result ≡ parsed_of most (some (value_from 0 s.now)) }
{
    let mut n = 0;
    for b in s {
        let digit = u64::from(*b - b'0');
        n = appended(n, digit, most).ok_or(Misread::TooLarge)?;
    }
    Ok(n)
}

// The bytes as a number up to `most`.
pub fn read(s: &[u8], most: u64) -> Result<u64, Misread>
    ensures { result ≡ parsed_of most (decimal_in s.now) }
{
    if s.is_empty() || !all_digits(s) {
        return Err(Misread::NotDecimal);
    }
    value(s, most)
}
