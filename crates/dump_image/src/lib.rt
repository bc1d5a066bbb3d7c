// The dump's image read: bytes of any length to a fault, or to what a lookup is lent. Added by the port. Crate `dump_image`.
#![tactic(auto)]

ghost use Rattle.std.specs.Prelude.{◌≡◌, ◌+◌, ◌*◌, ◌^◌, ◌≤◌, ◌<◌, length, get_or, Some};
ghost use Rattle.dump_image.specs.Image.{big_endian, words_from, head_of, verdict_of, headed_of, front_of, read_of, fault_number};

use config::Config;
use pa::PA;

// What an image tells in front of its words: the fields, the arena's base, and how many words follow for L0 and for the arena; the words
// start at an index, and behind the last of them is the end. Counts and no slices: they are told before any room for the words is lent.
#[derive(Clone, Copy)]
pub struct Image {
    pub config: Config,
    pub base: PA,
    pub l0: usize,
    pub arena: usize,
    pub words: usize,
    pub end: usize,
}

// Document 01's faults 1 to 4, by their numbers there.
#[derive(Clone, Copy, PartialEq, Eq)]
pub enum Fault {
    Version = 1,
    Short = 2,
    Counts = 3,
    Length = 4,
}

// The big-endian number of n bytes from an index. `from_be_bytes` is no plainer: it takes an array, of 4 bytes for one type and of 8 for
// another, and an image has numbers of both lengths.
fn number(s: &[u8], at: usize, n: usize) -> u64
    requires { (at + n ≤ length s.now) × (n ≤ 8) }
    ensures { (result ≡ big_endian s.now at n) × (result < 256 ^ n) }
{
    let mut v: u64 = 0;
    for b in &s[at..at + n] {
        v = v * 256 + u64::from(*b);
    }
    v
}

// The words from an index, as many as out has room for: each at its place in the image, of which `words_from` speaks.
pub fn copy_words(s: &[u8], at: usize, out: &mut [u64])
    requires { at + 8 * length out.old ≤ length s.now }
    ensures { out.new ≡ words_from s.now at (length out.old) }
{
    for (k, word) in out.iter_mut().enumerate() {
        *word = number(s, at + 8 * k, 8);
    }
}

// What a version byte says: how many bytes of fields stand behind the length, where the version is known.
fn head_of(version: u8) -> Option<usize>
    ensures { result ≡ head_of version }
{
    if version == 1 {
        return Some(4);
    }
    None
}

// The faults behind the head, by what it tells: the image, the length of the rest, and how many bytes there are.
fn verdict(f: Image, told: u64, len: usize) -> Result<Image, Fault>
    requires { told < 2 ^ 32 }
    ensures { result ≡ verdict_of f told len }
{
    if 64 < f.l0 {
        return Err(Fault::Counts);
    }
    if 4096 < f.arena {
        return Err(Fault::Counts);
    }
    if len < f.end {
        return Err(Fault::Short);
    }
    if 5 + told as usize != f.end {
        return Err(Fault::Length);
    }
    Ok(f)
}

// The image behind a known version's head of n bytes of fields, or its first fault.
fn headed(s: &[u8], n: usize) -> Result<Image, Fault>
    requires { n ≤ 8 }
    ensures { result ≡ headed_of s.now (get_or s.now 0 0) (Some n) }
{
    let words = 21 + n;
    if s.len() < words {
        return Err(Fault::Short);
    }
    let l0 = number(s, 13 + n, 4) as usize;
    let arena = number(s, 17 + n, 4) as usize;
    let f = Image {
        config: Config::from_flags(s[5], s[6], s[7], s[8]),
        base: PA(number(s, 5 + n, 8)),
        l0,
        arena,
        words,
        end: words + 8 * (l0 + arena),
    };
    verdict(f, number(s, 1, 4), s.len())
}

// The image at the front of some bytes, or its first fault; what follows it is not read.
#[tactic(auto, using(std::proofs::lemmas::Bool::Decides::nat_tests), unfolding(crate::specs::Image::front_of))]
pub fn parse_front(s: &[u8]) -> Result<Image, Fault>
    ensures { result ≡ front_of s.now }
{
    if s.len() == 0 {
        return Err(Fault::Version);
    }
    let n = head_of(s[0]).ok_or(Fault::Version)?;
    headed(s, n)
}

// The image of some bytes, or its first fault: bytes after it are one.
#[tactic(auto, using(std::proofs::lemmas::Bool::Decides::nat_tests), unfolding(crate::specs::Image::read_of))]
pub fn parse(s: &[u8]) -> Result<Image, Fault>
    ensures { result ≡ read_of s.now }
{
    let f = parse_front(s)?;
    if f.end < s.len() {
        return Err(Fault::Length);
    }
    Ok(f)
}

// Document 01's number of a fault.
impl From<Fault> for u64 {
    ghost from_gives = { λ f n. n ≡ fault_number f };

    fn from(f: Fault) -> u64 {
        f as u64
    }
}
