// Numbers and truths, from prefix order to a formula.
use super::fields::Fields;
use std::fmt;

// a number or a truth at the front of these fields
#[derive(Clone, Copy)]
pub struct Formula<'a>(pub Fields<'a>);

impl fmt::Display for Formula<'_> {
    fn fmt<W: fmt::Write>(&self, f: &mut fmt::Formatter<W>) -> fmt::Result {
        let mut fields = self.0;
        form(f, &mut fields, paper::DEPTH)
    }
}

// the sign between two operands
fn sign(code: u8) -> Option<&'static str> {
    match code {
        0x10 => Some("+"),
        0x11 => Some("-"),
        0x12 => Some("*"),
        0x20 => Some("<="),
        0x21 => Some("<"),
        0x22 => Some("="),
        0x23 => Some("!="),
        0x28 => Some("and"),
        0x29 => Some("or"),
        _ => None,
    }
}

// a parenthesis, but not around the whole
fn bracket<W: fmt::Write>(f: &mut fmt::Formatter<W>, levels: usize, b: &str) -> fmt::Result {
    if levels < paper::DEPTH {
        return f.write_str(b);
    }
    Ok(())
}

// the next form, of at most so many levels
fn form<W: fmt::Write>(
    f: &mut fmt::Formatter<W>,
    fields: &mut Fields<'_>,
    levels: usize,
) -> fmt::Result {
    if levels == 0 {
        return Ok(());
    }
    let code = fields.byte();
    match code {
        0x01 => write!(f, "{}", fields.signed()),
        0x02 => write!(f, "v{}", fields.byte()),
        0x14 => {
            f.write_str("-")?;
            form(f, fields, levels - 1)
        }
        0x2a => {
            f.write_str("not ")?;
            form(f, fields, levels - 1)
        }
        _ => {
            let Some(sign) = sign(code) else {
                return f.write_str("true");
            };
            bracket(f, levels, "(")?;
            form(f, fields, levels - 1)?;
            write!(f, " {sign} ")?;
            form(f, fields, levels - 1)?;
            bracket(f, levels, ")")
        }
    }
}
