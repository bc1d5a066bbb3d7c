// The calls that the port adds to the Rust's: mend of the L1 table that an address names, and the check of its normal form.
#![tactic(auto)]

ghost use Rattle.std.specs.Prelude.{◌≡◌, IfOk};
ghost use Rattle.gpt.specs.Lends.{lends};
ghost use Rattle.resolve.specs.declared.Call.TheVariants.{Plain};
ghost use Rattle.resolve.specs.Place.{asks, place_of};
ghost use Rattle.resolve.specs.Sited.{Sited};
ghost use Rattle.mend.specs.Outcome.{Left, named_by, mend_of, check_of};

use gpt::GranuleProtection;
use pa::PA;
use resolve::{Call, Place, Refusal, Site};

// The L1 table that an address names, in an arena of so many words, or why it names none.
fn table_named(p: &GranuleProtection, words: usize, address: PA) -> Result<Site, Refusal>
    ensures named { result ≡ named_by (place_of (asks p.now.config words p.now.base.0 Plain address.0) p.now.l0.now) }
    ensures sited { IfOk result (λ s. Sited words s) }
{
    match p.place(words, address, Call::Plain)? {
        Place::Block(_) => Err(Refusal::InvalidRequest),
        Place::Table(s) => Ok(s),
    }
}

// The mend of the L1 table that an address names: the stores made, or why it is refused.
#[tactic(auto, using(crate::proofs::Sites::part), unfolding(crate::specs::Outcome::mend_of, crate::specs::Outcome::mended_at))]
pub fn mend(
    p: &GranuleProtection,
    arena: &mut [u64],
    address: PA,
    limit: u64,
) -> Result<u64, Refusal>
    ensures { Left (mend_of (lends p.now arena.old) address.0 limit) result arena.new }
{
    let s = table_named(p, arena.len(), address)?;
    let table = &mut arena[s.start..s.start + s.words];
    Ok(mend_table::mend_table(table, s.unit, limit))
}

// The check of the L1 table that an address names: whether a mend that no limit stops would write nothing, or why it is refused.
#[tactic(auto, using(crate::proofs::Sites::part), unfolding(crate::specs::Outcome::check_of, crate::specs::Outcome::checked_at))]
pub fn check(p: &GranuleProtection, arena: &[u64], address: PA) -> Result<bool, Refusal>
    ensures { result ≡ check_of (lends p.now arena.now) address.0 }
{
    let s = table_named(p, arena.len(), address)?;
    Ok(mend_table::check_table(&arena[s.start..s.start + s.words], s.unit))
}
