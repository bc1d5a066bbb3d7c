// The dump's lines as bytes, and the numbers in them, each put into a lent buffer from a place on. Added by the port. Crate `dump_lines`.
// The buffer and the place in it stay two arguments of the public functions, and each length stands beside what puts it: their contracts
// speak of both (`Put`), docs/DECISIONS.md lists them, and `dump_text` measures a line to leave a buffer without room as it is.
#![tactic(auto)]

ghost use Rattle.std.specs.Prelude.{◌≡◌, ◌++◌, ◌+◌, ◌≤◌, ◌<◌, ◌^◌, length};
ghost use Rattle.dump_lines.specs.Digits.{digit_of, hex, dec, lowest, Put};
ghost use Rattle.dump_lines.specs.Lines.{gpi_name, name, address, line, header, told};

use gpi::Gpi;
use resolve::Refusal;

// A hexadecimal digit. `char::from_digit` is no plainer: it answers an `Option<char>`.
#[tactic(auto, using(std::proofs::lemmas::Bool::Decides::nat_tests), unfolding(crate::specs::Digits::digit_of))]
fn digit(d: u64) -> u8
    requires { d < 16 }
    ensures { result ≡ digit_of d }
{
    if d < 10 {
        b'0' + d as u8
    } else {
        b'a' + (d as u8 - 10)
    }
}

// Bytes, as they are.
pub fn put(out: &mut [u8], at: usize, src: &[u8]) -> usize
    requires { at + length src.now ≤ length out.old }
    ensures { Put out.old at src.now out.new result }
{
    let end = at + src.len();
    out[at..end].copy_from_slice(src);
    end
}

// The n lowest digits of a number in a base, from the last one on: std's formats write to a writer, and itoa knows decimal alone. By an
// index, as in `stores`: when a borrow by `iter_mut` is over, the proof knows how long the buffer is and not its bytes.
fn put_digits<const BASE: u64>(out: &mut [u8], at: usize, n: usize, x: u64) -> usize
    requires { (at + n ≤ length out.old) × (0 < BASE) × (BASE ≤ 16) }
    ensures { Put out.old at (lowest BASE n x) out.new result }
{
    let end = at + n;
    let mut v = x;
    for i in (at..end).rev() {
        out[i] = digit(v % BASE);
        v /= BASE;
    }
    end
}

// The n lowest hexadecimal digits of a number.
#[tactic(auto, using(crate::proofs::Bytes::hex_lowest))]
pub fn put_hex(out: &mut [u8], at: usize, n: usize, x: u64) -> usize
    requires { (at + n ≤ length out.old) × (n ≤ 16) }
    ensures { Put out.old at (hex n x) out.new result }
{
    put_digits::<16>(out, at, n, x)
}

// How long a number is in decimal.
pub fn dec_len(x: u64) -> usize
    ensures { (result ≡ length (dec x)) × (result ≤ 20) }
{
    1 + x.checked_ilog10().unwrap_or(0) as usize
}

// A number in decimal.
#[tactic(auto, using(crate::proofs::Decimal::dec_lowest))]
fn put_dec(out: &mut [u8], at: usize, x: u64) -> usize
    requires { at + length (dec x) ≤ length out.old }
    ensures { Put out.old at (dec x) out.new result }
{
    put_digits::<10>(out, at, dec_len(x), x)
}

// What is said, and a number.
pub fn put_numbered(out: &mut [u8], at: usize, what: &[u8], n: u64) -> usize
    requires { at + length (what.now ++ dec n) ≤ length out.old }
    ensures { Put out.old at (what.now ++ dec n) out.new result }
{
    let b = put(out, at, what);
    put_dec(out, b, n)
}

// Addresses from start to last that answer alike.
#[derive(Clone, Copy)]
pub struct Run {
    pub start: u64,
    pub last: u64,
    pub answer: Result<Gpi, Refusal>,
}

// A GPI's name.
fn gpi_name(g: Gpi) -> &'static [u8]
    ensures { result.now ≡ gpi_name g }
{
    match g {
        Gpi::NoAccess => b"NoAccess",
        Gpi::SystemAgent => b"SystemAgent",
        Gpi::NonSecureProtected => b"NonSecureProtected",
        Gpi::NoAccess6 => b"NoAccess6",
        Gpi::NoAccess7 => b"NoAccess7",
        Gpi::Secure => b"Secure",
        Gpi::NonSecure => b"NonSecure",
        Gpi::Root => b"Root",
        Gpi::Realm => b"Realm",
        Gpi::NonSecureOnly => b"NonSecureOnly",
        Gpi::Any => b"Any",
    }
}

fn name_len(a: Result<Gpi, Refusal>) -> usize
    ensures { (result ≡ length (name a)) × (result ≤ 18) }
{
    match a {
        Ok(g) => gpi_name(g).len(),
        Err(r) => 8 + dec_len(u64::from(r)),
    }
}

fn put_name(out: &mut [u8], at: usize, a: Result<Gpi, Refusal>) -> usize
    requires { at + length (name a) ≤ length out.old }
    ensures { Put out.old at (name a) out.new result }
{
    match a {
        Ok(g) => put(out, at, gpi_name(g)),
        Err(r) => put_numbered(out, at, b"refused ", u64::from(r)),
    }
}

// How long a run's line is.
pub fn line_len(a: Result<Gpi, Refusal>) -> usize
    ensures { result ≡ 29 + length (name a) }
{
    29 + name_len(a)
}

// An address, and a space behind it.
#[tactic(auto, using(crate::proofs::Bytes::pieces), unfolding(crate::specs::Lines::address))]
fn put_address(out: &mut [u8], at: usize, x: u64) -> usize
    requires { at + length (address x) ≤ length out.old }
    ensures { Put out.old at (address x) out.new result }
{
    let a = put_hex(out, at, 13, x);
    put(out, a, b" ")
}

// A run's line: its first and its last address, and what they answer.
#[tactic(auto, using(crate::proofs::Bytes::pieces), unfolding(crate::specs::Lines::line))]
pub fn put_line(out: &mut [u8], at: usize, r: Run) -> usize
    requires { at + length (line r) ≤ length out.old }
    ensures { Put out.old at (line r) out.new result }
{
    let a = put_address(out, at, r.start);
    let b = put_address(out, a, r.last);
    let d = put_name(out, b, r.answer);
    put(out, d, b"\n")
}

// How long the header's line is.
#[tactic(auto, using(crate::proofs::Lengths::measured))]
pub fn header_len(pps: u64, pgs: u64, l0gptsz: u64) -> usize
    ensures { result ≡ length (header (record { pps = pps; pgs = pgs; l0gptsz = l0gptsz })) }
{
    18 + dec_len(pps) + dec_len(pgs) + dec_len(l0gptsz)
}

// The header's line, of any three widths.
#[tactic(auto, using(crate::proofs::Bytes::pieces), unfolding(crate::specs::Lines::header))]
pub fn put_header(out: &mut [u8], at: usize, pps: u64, pgs: u64, l0gptsz: u64) -> usize
    requires { at + length (header (record { pps = pps; pgs = pgs; l0gptsz = l0gptsz })) ≤ length out.old }
    ensures { Put out.old at (header (record { pps = pps; pgs = pgs; l0gptsz = l0gptsz })) out.new result }
{
    let a = put_numbered(out, at, b"gpt pps=", pps);
    let b = put_numbered(out, a, b" pgs=", pgs);
    let c = put_numbered(out, b, b" l0=", l0gptsz);
    put(out, c, b"\n")
}

// How long the line of what is said, and a number, is.
#[tactic(auto, using(crate::proofs::Lengths::measured))]
pub fn told_len(what: &[u8], n: u64) -> usize
    requires { length what.now < 2 ^ 32 }
    ensures { result ≡ length (told what.now n) }
{
    what.len() + dec_len(n) + 1
}

// The line of what is said, and a number.
#[tactic(auto, using(crate::proofs::Bytes::pieces), unfolding(crate::specs::Lines::told))]
pub fn put_told(out: &mut [u8], at: usize, what: &[u8], n: u64) -> usize
    requires { at + length (told what.now n) ≤ length out.old }
    ensures { Put out.old at (told what.now n) out.new result }
{
    let b = put_numbered(out, at, what, n);
    put(out, b, b"\n")
}
