// `l1`: words of the L1 tables, what they say, and how they are made. From table.rs: the descriptors of L1, by value.
#![tactic(auto)]

ghost use Rattle.std.specs.Prelude.{◌≡◌, ◌<◌, ◌≤◌};
ghost use Rattle.std.specs.Result.{result_ok};
ghost use Rattle.theory.specs.Normal.{span as span_of};
ghost use Rattle.l1.specs.Arm.{level_of};
ghost use Rattle.l1.specs.L1.{l1_of, read_at, match_at, contig_word};
ghost use Rattle.l1.specs.L1.{flat as flat_at};

use gpi::{Gpi, Size, Unknown};
use granules::GranuleIndex;

// What a valid word of an L1 table says; any other is unknown. The Rust's `Level1DescriptorRef`.
#[derive(Clone, Copy)]
pub enum L1Entry {
    Contiguous(Gpi, Size),
    Granules,
}

impl TryFrom<u64> for L1Entry {
    type Error = Unknown;

    ghost try_from_gives = { λ w r. result_ok r ≡ l1_of w };

    #[tactic(auto, using(crate::proofs::Entries::l1_asked), unfolding(crate::specs::L1::l1_of))]
    fn try_from(w: u64) -> Result<L1Entry, Unknown> {
        if w % 16 == 1 {
            let g = Gpi::try_from((w / 16) % 16)?;
            let s = Size::try_from((w / 256) % 4)?;
            Ok(L1Entry::Contiguous(g, s))
        } else if granules::all_valid(w) {
            Ok(L1Entry::Granules)
        } else {
            Err(Unknown)
        }
    }
}

// The contiguous word of a size and a GPI.
pub fn contig(s: Size, g: Gpi) -> u64
    ensures { result ≡ contig_word s g }
{
    u64::from(s) * 256 + u64::from(g) * 16 + 1
}

// What granule i of a word reads: nothing where the word is invalid. Not by way of `L1Entry`: a lookup wants neither the size nor an entry
// in memory.
#[inline(always)]
#[tactic(auto, using(crate::proofs::Sized::reads))]
pub fn read(w: u64, i: GranuleIndex) -> Option<Gpi>
    ensures { result ≡ read_at w i }
{
    if w % 16 == 1 {
        if w % 1024 < 256 {
            return None; // no size
        }
        return Gpi::try_from((w / 16) % 16).ok();
    }
    if granules::all_valid(w) {
        granules::gpi_at(w, i)
    } else {
        None
    }
}

// Whether a word reads this GPI throughout: nothing where it is invalid. Not by way of `L1Entry`: a scan wants neither the size nor an
// entry in memory, and asks the table of nibbles only where the GPIs differ.
#[tactic(auto, using(crate::proofs::Sized::matches))]
pub fn matches_gpi(w: u64, g: Gpi) -> Option<bool>
    ensures { result ≡ match_at w g }
{
    if w % 16 == 1 {
        if w % 1024 < 256 {
            return None;
        }
        let n = (w / 16) % 16;
        if n == u64::from(g) {
            return Some(true);
        }
        if gpi::is_valid(n) {
            return Some(false);
        }
        return None;
    }
    if granules::all_valid(w) {
        Some(granules::all_gpi(w, g))
    } else {
        None
    }
}

// The granule word that reads as a word does. A word whose low nibble isn't 1 is its own, valid or not: its other nibbles aren't looked at.
#[tactic(auto, using(crate::proofs::Alike::flat_untagged))]
pub fn flat(w: u64) -> u64
    ensures { result ≡ flat_at w }
{
    if w % 16 != 1 {
        return w;
    }
    match L1Entry::try_from(w) {
        Ok(L1Entry::Contiguous(g, _)) => u64::from(g) * 0x1111_1111_1111_1111,
        _ => w,
    }
}

// The words of a size, where `unit` words are 2 MB.
#[tactic(auto, unfolding(theory::specs::Normal::span))]
pub fn span(unit: usize, s: Size) -> usize
    requires { unit ≤ 32 }
    ensures { result ≡ span_of unit (level_of s) }
{
    match s {
        Size::MB2 => unit,
        Size::MB32 => 16 * unit,
        Size::MB512 => 256 * unit,
    }
}
