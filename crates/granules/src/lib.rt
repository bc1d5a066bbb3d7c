// `granules`: the sixteen nibbles of a word. Whether each of them is a GPI's, or one GPI's; sixteen GPIs as a word, and one of them read or
// stored. From table.rs: the descriptors of granules, by value. Which words are such is `l1`'s to say.
#![tactic(auto)]

ghost use Rattle.std.specs.Prelude.{◌≡◌, ℕ, ◌%◌, ◌<◌, eqb};
ghost use Rattle.gpi.specs.Gpi.{num, gpi_at, known_at};
ghost use Rattle.granules.specs.Nibs.{nib, nibs, all};
ghost use Rattle.granules.specs.Packed.{granule_word, gpis_of, put, or_no_access};

use gpi::Gpi;
use std::array;
use std::marker::Model;

// The place of a granule in its word, from the lowest nibble up. Its value is a number below 16.
#[derive(Clone, Copy)]
pub struct GranuleIndex {
    place: u64,
}

impl Model for GranuleIndex {
    ghost Value = { ℕ };

    ghost view = { λ i. i.place };

    ghost inverse = { λ n. record { place = n } };

    ghost invariant = { λ i. i.place < 16 };
}

impl GranuleIndex {
    // Of granule n, counted from the first of any word.
    #[inline(always)]
    pub fn of(n: u64) -> GranuleIndex
        ensures { result ≡ n % 16 }
    {
        GranuleIndex { place: n % 16 }
    }
}

impl From<GranuleIndex> for u64 {
    ghost from_gives = { λ i n. n ≡ i };

    #[inline(always)]
    fn from(i: GranuleIndex) -> u64 {
        i.place
    }
}

// Whether each of the sixteen nibbles is a GPI's, by one test of them all. A nibble is reserved where its bits 2 and 3 are off and bit 0 or
// 1 is on (1, 2, 3), or where bits 2 and 3 are on and bit 0 is off (12, 14). Each bit is brought to the lowest place of its nibble.
#[inline(always)]
pub fn all_valid(w: u64) -> bool
    ensures { result ≡ all known_at (nibs 16 w) }
{
    let b = w >> 1;
    let c = w >> 2;
    let d = w >> 3;
    let low = (w | b) & ((c | d) ^ 0x1111_1111_1111_1111);
    let high = (c & d) & (w ^ 0x1111_1111_1111_1111);
    (low | high) & 0x1111_1111_1111_1111 == 0
}

// Whether all sixteen nibbles are this GPI.
pub fn all_gpi(w: u64, g: Gpi) -> bool
    ensures { result ≡ all (eqb (num g)) (nibs 16 w) }
{
    let x = u64::from(g);
    (0u64..16).all(|i| x == (w >> (4 * i)) % 16)
}

// The word of sixteen GPIs.
pub fn granule(gpis: [Gpi; 16]) -> u64
    ensures { result ≡ granule_word gpis }
{
    gpis.iter().rev().fold(0, |w, g| u64::from(*g) + (w << 4))
}

// A nibble's GPI; a reserved one permits no access. Named, since the definition is: in the call of `from_fn` it would be no plainer.
fn gpi_or_no_access(n: u64) -> Gpi
    ensures { result ≡ or_no_access (gpi_at n) }
{
    Gpi::try_from(n).unwrap_or(Gpi::NoAccess)
}

// The sixteen GPIs of a word. `l1::L1Entry` says whether they are its granules.
pub fn gpis(w: u64) -> [Gpi; 16]
    ensures { result ≡ gpis_of w }
{
    array::from_fn(|i| gpi_or_no_access((w >> (4 * i)) % 16))
}

// Granule i of a word of sixteen GPIs.
#[inline(always)]
pub fn gpi_at(w: u64, i: GranuleIndex) -> Option<Gpi>
    ensures { result ≡ gpi_at (nib w i) }
{
    Gpi::try_from((w >> (4 * i.place)) % 16).ok()
}

// The granule store: the word with granule i made g.
pub fn set_gpi(w: u64, i: GranuleIndex, g: Gpi) -> u64
    ensures { result ≡ put w i (num g) }
{
    let n = u64::from(g);
    let s = 4 * i.place;
    let old = (w >> s) % 16;
    w - (old << s) + (n << s)
}
