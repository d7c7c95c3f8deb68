// Numbers in bytes, by position: big-endian, signed ones in two's complement.
#![tactic(auto)]

ghost use Rattle.std.specs.Prelude.{◌≡◌, ◌∷◌, [], ◌+◌, ◌≤◌, ◌<◌, length, get_or};
ghost use Rattle.semantics.specs.Bytes as bytes;
ghost use Rattle.semantics.specs.Run.{value_bytes};
ghost use Rattle.semantics.specs.Editions.{capacity};
ghost use Rattle.edition.specs.Editions.{edition_of};
ghost use Rattle.codec.specs.Numbers.{number_at};
ghost use Rattle.codec.specs.Ends as ends;
ghost use Rattle.codec.specs.Writing.{Wrote};

use edition::Edition;

pub mod part;

// a byte as a number
pub fn wide(x: u8) -> usize
    ensures { result ≡ x }
{
    x as usize
}

// the two bytes at a place
pub fn nat2(s: &[u8], at: usize) -> usize
    requires { at + 2 ≤ length s.now }
    ensures { result ≡ bytes.be2 (get_or s.now at 0) (get_or s.now (at + 1) 0) }
{
    usize::from(u16::from_be_bytes([s[at], s[at + 1]]))
}

// the count, length or number at a place, as wide as the edition has it
pub fn number(s: &[u8], at: usize, ed: Edition) -> usize
    requires { at + bytes.width_of (edition_of ed).width ≤ length s.now }
    ensures { result ≡ number_at (edition_of ed).width s.now at }
{
    match ed {
        Edition::First => usize::from(s[at]),
        Edition::Second => nat2(s, at),
    }
}

// the four bytes at a place
pub fn nat4(s: &[u8], at: usize) -> usize
    requires { at + 4 ≤ length s.now }
    ensures { result ≡ bytes.be4 (get_or s.now at 0) (get_or s.now (at + 1) 0) (get_or s.now (at + 2) 0) (get_or s.now (at + 3) 0) }
{
    u32::from_be_bytes([s[at], s[at + 1], s[at + 2], s[at + 3]]) as usize
}

// the signed number in the four bytes at a place
pub fn int4(s: &[u8], at: usize) -> i32
    requires { at + 4 ≤ length s.now }
    ensures { result ≡ bytes.signed (bytes.be4 (get_or s.now at 0) (get_or s.now (at + 1) 0) (get_or s.now (at + 2) 0) (get_or s.now (at + 3) 0)) }
{
    i32::from_be_bytes([s[at], s[at + 1], s[at + 2], s[at + 3]])
}

// the place n bytes behind another; None where the slice ends before it
fn behind(s: &[u8], at: usize, n: usize) -> Option<usize>
    requires { at ≤ length s.now }
    ensures { result ≡ ends.behind s.now at n }
{
    if s.len() - at < n {
        return None;
    }
    Some(at + n)
}

// where the section at a place ends, its length in two bytes
pub fn end2(s: &[u8], at: usize) -> Option<usize>
    requires { at ≤ length s.now }
    ensures { result ≡ ends.end_of bytes.section2 s.now at }
{
    let start = behind(s, at, 2)?;
    behind(s, start, nat2(s, at))
}

// the same, its length in four bytes
pub fn end4(s: &[u8], at: usize) -> Option<usize>
    requires { at ≤ length s.now }
    ensures { result ≡ ends.end_of bytes.section4 s.now at }
{
    let start = behind(s, at, 4)?;
    behind(s, start, nat4(s, at))
}

// a byte at a place; the next place
pub fn put1(d: &mut [u8], i: usize, b: u8) -> usize
    requires { i + 1 ≤ length d.old }
    ensures { (result ≡ i + 1) × Wrote d.old i (b ∷ []) d.new }
{
    d[i] = b;
    i + 1
}

// the two bytes of a number at a place; the next place
pub fn put2(d: &mut [u8], i: usize, n: usize) -> usize
    requires { (i + 2 ≤ length d.old) × (n < 65536) }
    ensures { (result ≡ i + 2) × Wrote d.old i (bytes.out2 n) d.new }
{
    put_slice(d, i, &(n as u16).to_be_bytes())
}

// a count, length or number at a place, as wide as the edition has it; the next place
pub fn put_number(d: &mut [u8], i: usize, n: usize, ed: Edition) -> usize
    requires { (i + bytes.width_of (edition_of ed).width ≤ length d.old) × (n < capacity (edition_of ed).width) }
    ensures { (result ≡ i + bytes.width_of (edition_of ed).width) × Wrote d.old i (bytes.out (edition_of ed).width n) d.new }
{
    match ed {
        Edition::First => put1(d, i, n as u8),
        Edition::Second => put2(d, i, n),
    }
}

// the four bytes of a number at a place; the next place
pub fn put4(d: &mut [u8], i: usize, n: usize) -> usize
    requires { (i + 4 ≤ length d.old) × (n < 4294967296) }
    ensures { (result ≡ i + 4) × Wrote d.old i (bytes.out4 n) d.new }
{
    put_slice(d, i, &(n as u32).to_be_bytes())
}

// the four bytes of a signed number at a place; the next place
pub fn put_signed(d: &mut [u8], i: usize, z: i32) -> usize
    requires { i + 4 ≤ length d.old }
    ensures { (result ≡ i + 4) × Wrote d.old i (value_bytes z) d.new }
{
    put_slice(d, i, &z.to_be_bytes())
}

// the bytes of a slice at a place; the next place. Byte by byte, which LLVM makes one memcpy of: `copy_from_slice` calls memmove, which a program that links the library would have to bring
pub fn put_slice(d: &mut [u8], i: usize, s: &[u8]) -> usize
    requires { i + length s.now ≤ length d.old }
    ensures { (result ≡ i + length s.now) × Wrote d.old i s.now d.new }
{
    let mut at = i;
    for &b in s {
        at = put1(d, at, b);
    }
    at
}
