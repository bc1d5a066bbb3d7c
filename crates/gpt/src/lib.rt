// The calls of the granule protection table. From gpt.rs: `GranuleProtection`.
#![tactic(auto)]

ghost use Rattle.std.specs.Prelude.{◌≡◌, List, ℕ, ◌≤◌, ◌<◌, length};
ghost use Rattle.theory.specs.Normal.{at};
ghost use Rattle.theory.specs.Arena.{table_at};
ghost use Rattle.l1.specs.L1.{read_at};
ghost use Rattle.config.specs.declared.Config.{Config};
ghost use Rattle.resolve.specs.Sited.{Sited};
ghost use Rattle.resolve.specs.Lent.{lent};
ghost use Rattle.resolve.specs.Place.{asks, place_of};
ghost use Rattle.gpt.specs.Lookup.{granted, judged, lookup_of};
ghost use Rattle.gpt.specs.Set.{Made, site_set, set_of};
ghost use Rattle.gpt.specs.Lends.{lends};
ghost use Rattle.gpi.specs.Gpi.{num};

use config::Config;
use gpi::Gpi;
use granules::GranuleIndex;
use pa::PA;
use resolve::{Ask, Call, Place, Refusal, Site};
use set_table::{Changed, SetAt};

// What a call is lent besides the arena's words, which a lookup reads and a set changes. The Rust's holds the L0 table as `&'static mut`, and
// its tables behind raw pointers.
#[derive(Clone, Copy)]
pub struct GranuleProtection<'a> {
    pub config: Config,
    pub l0: &'a [u64],
    pub base: PA,
}

// A GPI that was read, if it is supported.
#[inline(always)]
pub fn grant(c: Config, g: Gpi, r: Refusal) -> Result<Gpi, Refusal>
    ensures { result ≡ granted c g r }
{
    if c.is_gpi_supported(g) { Ok(g) } else { Err(r) }
}

// Granule k of a word of an L1 table.
#[inline(always)]
fn judge(c: Config, w: u64, k: GranuleIndex) -> Result<Gpi, Refusal>
    ensures { result ≡ judged c (read_at w k) }
{
    let g = l1::read(w, k).ok_or(Refusal::InvalidL1Entry)?;
    grant(c, g, Refusal::InvalidL1Entry)
}

// What is read at a place in a table, which is a part of the arena.
#[inline(always)]
#[tactic(auto, using(crate::proofs::Sites::part))]
fn read_site(c: Config, arena: &[u64], s: Site) -> Result<Gpi, Refusal>
    requires { Sited (length arena.now) s }
    ensures { result ≡ judged c (read_at (at (table_at s.start s.words arena.now) s.index) s.granule) }
{
    let table = &arena[s.start..s.start + s.words];
    judge(c, table[s.index], s.granule)
}

// A set at a place in a table, which is a part of the arena.
fn set_site(
    arena: &mut [u64],
    log: &mut [u64],
    s: Site,
    address: PA,
    g: Gpi,
) -> Result<Changed, Refusal>
    requires sited { Sited (length arena.old) s }
    requires in_bounds { 52 ≤ length log.old }
    ensures { (c : Config) (l : List ℕ) (b : ℕ)
        → Made (site_set (lent c l arena.old b) log.old s address.0 (num g)) result arena.new
        log.new }
{
    let q = SetAt {
        offset: s.start,
        index: s.index,
        granule: u64::from(s.granule),
        unit: s.unit,
        gpi: g,
        address,
        bytes: s.bytes,
    };
    let table = &mut arena[s.start..s.start + s.words];
    set_table::set_table(table, log, &q).ok_or(Refusal::InvalidL1Entry)
}

impl<'a> GranuleProtection<'a> {
    // Where an address lies, in an arena of so many words, or why the call is refused.
    #[inline(always)]
    pub fn place(&self, words: usize, address: PA, call: Call) -> Result<Place, Refusal>
        ensures { result ≡ place_of (asks self.now.config words self.now.base.0 call address.0) self.now.l0.now }
    {
        let q = Ask {
            config: self.config,
            words,
            base: self.base,
            address,
            call,
        };
        resolve::resolve(self.l0, q)
    }

    // The GPI of an address. The Rust's `lookup`; its table behind a raw pointer is here a part of the arena.
    #[inline(always)]
    #[tactic(auto, unfolding(crate::specs::Lookup::lookup_of, crate::specs::Lookup::looked_at))]
    pub fn lookup(&self, arena: &[u64], address: PA) -> Result<Gpi, Refusal>
        ensures { result ≡ lookup_of (lends self.now arena.now) address.0 }
    {
        match self.place(arena.len(), address, Call::Plain)? {
            Place::Block(g) => grant(self.config, g, Refusal::InvalidL0Entry),
            Place::Table(s) => read_site(self.config, arena, s),
        }
    }

    // The granule of an address given to another world: what is changed, or why nothing is. The Rust's `set`, with its barriers and stores
    // told in the log.
    #[tactic(auto, using(crate::proofs::Sites::long_at), unfolding(crate::specs::Set::set_of, crate::specs::Set::set_at))]
    pub fn set(
        &self,
        arena: &mut [u64],
        log: &mut [u64],
        address: PA,
        gpi: u64,
    ) -> Result<Changed, Refusal>
        ensures { Made (set_of (lends self.now arena.old) log.old address.0 gpi) result arena.new log.new }
    {
        let n = Gpi::try_from(gpi).ok();
        match self.place(arena.len(), address, Call::Set(log.len(), n))? {
            Place::Block(_) => Err(Refusal::InvalidRequest),
            Place::Table(s) => {
                let g = n.ok_or(Refusal::InvalidRequest)?;
                set_site(arena, log, s, address, g)
            }
        }
    }
}
