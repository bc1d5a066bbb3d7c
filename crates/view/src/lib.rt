// `view`: a read-only view of an L1 table, the caller's words and the granule width, with thin readers. In the place of table.rs's
// `GranuleDescriptorRef`. An address is told by its distance in bytes from the table's first.
#![tactic(auto)]

ghost use Rattle.std.specs.Prelude.{◌≡◌, ◌<◌, length};
ghost use Rattle.view.specs.Reads.{is_width, spot_of, seen_at, held_at};

use gpi::Gpi;
use granules::GranuleIndex;

#[derive(Clone, Copy)]
pub struct View<'a> {
    pub words: &'a [u64],
    pub width: u64,
}

// Why an address reads no GPI: its word is invalid, or it lies outside the table.
#[derive(Clone, Copy, PartialEq, Eq)]
pub enum NoGpi {
    Invalid,
    Outside,
}

// Whether granules may be of this width.
fn is_width(width: u64) -> bool
    ensures { result ≡ is_width width }
{
    matches!(width, 12 | 14 | 16)
}

impl<'a> View<'a> {
    pub fn new(words: &'a [u64], width: u64) -> View<'a>
        ensures { (result.words ≡ words.entry) × (result.width ≡ width) }
    {
        View { words, width }
    }

    // The word and the granule of an address: a width that granules don't have is refused, and an address behind the table's last word.
    #[tactic(auto, using(std::proofs::lemmas::Bool::Decides::nat_tests), unfolding(crate::specs::Reads::spot_of))]
    fn spot_at(&self, at: u64) -> Option<(usize, GranuleIndex)>
        ensures { result ≡ spot_of (length self.now.words.now) self.now.width at }
    {
        if !is_width(self.width) {
            return None;
        }
        let g = at >> self.width;
        let i = (g / 16) as usize;
        if i < self.words.len() {
            return Some((i, GranuleIndex::of(g)));
        }
        None
    }

    // The word that holds an address.
    #[tactic(auto, using(crate::proofs::Spots::in_table))]
    pub fn word_at(&self, at: u64) -> Option<u64>
        ensures { result ≡ seen_at self.now.words.now self.now.width at }
    {
        let (i, _) = self.spot_at(at)?;
        Some(self.words[i])
    }

    // The GPI of an address.
    #[tactic(auto, using(crate::proofs::Spots::in_table))]
    pub fn gpi_at(&self, at: u64) -> Result<Gpi, NoGpi>
        ensures { result ≡ held_at self.now.words.now self.now.width at }
    {
        let (i, k) = self.spot_at(at).ok_or(NoGpi::Outside)?;
        l1::read(self.words[i], k).ok_or(NoGpi::Invalid)
    }
}
