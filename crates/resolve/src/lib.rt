// Crate resolve. Where an address lies: the refusals 1 to 8 in their order, once for every call, and the tests behind them. From gpt.rs:
// what `lookup` and `set` begin with, `Error` and `GranuleError`, and what is added to them.
#![tactic(auto)]

ghost use Rattle.std.specs.Prelude.{◌≡◌, false, ◌≤◌, ◌<◌, ◌^◌};
ghost use Rattle.resolve.specs.Refusals.{refusal_number, config_refusal, arena_bad, log_short, gpi_bad, outside};
ghost use Rattle.config.specs.Fields.{configured_of};
ghost use Rattle.resolve.specs.Place.{site_of, place_of};
ghost use Rattle.resolve.specs.Sited.{Passed};
ghost use Rattle.resolve.specs.Inner.{Told, Entry, word_of, onward};

use config::{Config, ConfigError, Widths};
use gpi::{Gpi, Size};
use granules::GranuleIndex;
use l0::L0Entry;
use pa::PA;

// Why a call is refused: document 01's 1 to 9, by their numbers there. The Rust's `Error` and `GranuleError`, and what is added to them.
#[derive(Clone, Copy, PartialEq, Eq)]
pub enum Refusal {
    InvalidConfiguration = 1,
    GptNotInitialized = 2,
    FewL0Words = 3,
    BadArena = 4,
    ShortLog = 5,
    InvalidRequest = 6,
    InvalidL0Entry = 7,
    OutsideArena = 8,
    InvalidL1Entry = 9,
}

// The paper's number of a refusal.
impl From<Refusal> for u64 {
    ghost from_gives = { λ r n. n ≡ refusal_number r };

    #[inline(always)]
    fn from(r: Refusal) -> u64 {
        r as u64
    }
}

impl From<ConfigError> for Refusal {
    ghost from_gives = { λ e r. r ≡ config_refusal e };

    #[inline(always)]
    fn from(e: ConfigError) -> Refusal {
        match e {
            ConfigError::InvalidConfiguration => Refusal::InvalidConfiguration,
            ConfigError::GptNotInitialized => Refusal::GptNotInitialized,
        }
    }
}

// What a call asks besides an address: a set has its log's words and its GPI, as the number was read. No Option of what a set asks: `Plain`
// is a kind of call, of which the definitions and theorems speak.
#[derive(Clone, Copy)]
pub enum Call {
    Plain,
    Set(usize, Option<Gpi>),
}

// The end of the physical addresses, 2^52.
const TOP: u64 = 0x10_0000_0000_0000;

// Whether the arena is out of order. Its end is never computed before it is known to be in order, so nothing wraps.
#[inline(always)]
#[tactic(auto, using(std::proofs::lemmas::Bool::Decides::nat_tests), unfolding(crate::specs::Refusals::arena_bad))]
pub fn arena_bad(base: PA, words: usize) -> bool
    ensures { result ≡ arena_bad base.0 words }
{
    base.0 % 4096 != 0 || TOP < base.0 || (TOP - base.0) / 8 < words as u64
}

// Whether the log is too short for a set.
#[inline(always)]
pub fn log_short(call: Call) -> bool
    ensures { result ≡ log_short call }
{
    match call {
        Call::Plain => false,
        Call::Set(n, _) => n < 52,
    }
}

// Whether the GPI of a set is unknown or unsupported.
#[inline(always)]
pub fn gpi_bad(c: Config, call: Call) -> bool
    ensures { result ≡ gpi_bad c call }
{
    match call {
        Call::Plain => false,
        Call::Set(_, Some(g)) => !c.is_gpi_supported(g),
        Call::Set(_, None) => true,
    }
}

// Whether a table at a isn't wholly inside an arena that is in order.
#[inline(always)]
#[tactic(auto, using(crate::proofs::Arena::arena_fine), unfolding(crate::specs::Refusals::outside))]
pub fn is_outside(base: PA, words: usize, a: PA, n: usize) -> bool
    requires words_value { arena_bad base.0 words ≡ false }
    requires a_bound { a.0 < 2 ^ 52 }
    requires n_bound { n ≤ 2 ^ 23 }
    ensures { result ≡ outside base.0 words a.0 n }
{
    a.0 < base.0 || base.0 + 8 * (words as u64) < a.0 + 8 * (n as u64)
}

// What a call is lent, as far as the refusals go: the arena's words are counted and not read. The L0 words stand beside it.
#[derive(Clone, Copy)]
pub struct Ask {
    pub config: Config,
    pub words: usize,
    pub base: PA,
    pub address: PA,
    pub call: Call,
}

// The L1 table as a part of the arena, and the address's place in it. Numbers and no slice: a lookup is lent the arena to read and a set to
// write, and the refusals ask its length alone.
#[derive(Clone, Copy)]
pub struct Site {
    // the arena's index of the table's first word
    pub start: usize,
    // the table's words
    pub words: usize,
    // the table's index of the address's word, and its granule there
    pub index: usize,
    pub granule: GranuleIndex,
    // the words of 2 MB, and the bytes of a granule
    pub unit: usize,
    pub bytes: u64,
}

// Where an address lies that isn't refused.
#[derive(Clone, Copy)]
pub enum Place {
    Block(Gpi),
    Table(Site),
}

#[inline(always)]
#[tactic(auto, unfolding(crate::specs::Place::site_of))]
fn site_at(q: Ask, w: Widths, a: PA) -> Site
    requires { q.base.0 ≤ a.0 }
    ensures { result ≡ site_of q w a.0 }
{
    let base = q.base;
    let address = q.address;
    Site {
        start: ((a.0 - base.0) / 8) as usize,
        words: w.l1_words(),
        index: w.l1_resolve(address),
        granule: w.granule_resolve(address),
        unit: w.size_words(Size::MB2),
        bytes: w.granule_bytes(),
    }
}

// What a call meets before its L0 word is read: the widths to read it by, or the first of the refusals 1 to 6 in their order. The tests are
// asked first and judged then: one that is called behind several others counts as rare, and the compiler would leave its call standing in a
// lookup.
#[inline(always)]
#[tactic(auto, using(std::proofs::lemmas::Bool::Decides::nat_tests), unfolding(crate::specs::Place::place_of, crate::specs::Place::located))]
fn admit(d: Result<Widths, ConfigError>, l0: &[u64], q: Ask) -> Result<Widths, Refusal>
    requires { d ≡ configured_of q.config }
    ensures { Told q l0.now result }
{
    let w = d?;
    let address = q.address;
    let few = (l0.len() as u64) < w.l0_entries();
    let bad = arena_bad(q.base, q.words);
    let short = log_short(q.call);
    let high = config::pow2(w.pps) <= address.0;
    let gpi = gpi_bad(q.config, q.call);
    if few {
        return Err(Refusal::FewL0Words);
    }
    if bad {
        return Err(Refusal::BadArena);
    }
    if short {
        return Err(Refusal::ShortLog);
    }
    if high {
        return Err(Refusal::InvalidRequest);
    }
    if gpi {
        return Err(Refusal::InvalidRequest);
    }
    Ok(w)
}

// What the L0 word of an address says.
#[inline(always)]
#[tactic(auto, using(config::proofs::Geometry::l0_in))]
fn l0_word(l0: &[u64], q: Ask, w: Widths) -> Option<L0Entry>
    requires { Passed q l0.now w }
    ensures { result ≡ word_of q l0.now w }
{
    L0Entry::try_from(l0[w.l0_resolve(q.address)]).ok()
}

// The refusals 7 and 8, of what the L0 word says: from there a block, or a table's place.
#[inline(always)]
#[tactic(auto, using(config::proofs::Geometry::l1_most, crate::proofs::Arena::inside, crate::proofs::Chain::table_below))]
fn enter(e: Option<L0Entry>, q: Ask, w: Widths) -> Result<Place, Refusal>
    requires entry { Entry e }
    requires words_value { arena_bad q.base.0 q.words ≡ false }
    ensures { result ≡ onward q w e }
{
    match e.ok_or(Refusal::InvalidL0Entry)? {
        L0Entry::Block(g) => Ok(Place::Block(g)),
        L0Entry::Table(a) => {
            if is_outside(q.base, q.words, a, w.l1_words()) {
                return Err(Refusal::OutsideArena);
            }
            Ok(Place::Table(site_at(q, w, a)))
        }
    }
}

// Where an address lies, or why it is refused. In line: a lookup is then without a call and builds no place in memory; where it isn't, a lookup
// takes 1.2 to 2.0 of the Rust's time (docs/BENCH.md).
#[inline(always)]
#[tactic(auto, using(crate::proofs::Chain::through))]
pub fn resolve(l0: &[u64], q: Ask) -> Result<Place, Refusal>
    ensures { result ≡ place_of q l0.now }
{
    let w = admit(q.config.configure(), l0, q)?;
    enter(l0_word(l0, q, w), q, w)
}
