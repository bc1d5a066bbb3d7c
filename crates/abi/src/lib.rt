// The C interface: docs/ABI.md. Each call packs what its call of `gpt` or `mend` answers into one number; what it leaves is what that leaves.
// `abi_c` exports them. The calls take plain numbers, as C has them. The packings are functions: a `From` would be of std's types alone.
#![tactic(auto)]

ghost use Rattle.std.specs.Prelude.{◌≡◌, ◌+◌, ◌*◌, ◌≤◌};
ghost use Rattle.abi.specs.Packed.{looked_packed, changed_packed, mended_packed, checked_packed};
ghost use Rattle.abi.specs.Inner.{Small, Few};
ghost use Rattle.config.specs.Flags.{config_of};
ghost use Rattle.resolve.specs.Lent.{lent};
ghost use Rattle.gpt.specs.Lookup.{lookup_of};
ghost use Rattle.gpt.specs.Set.{set_of};
ghost use Rattle.mend.specs.Outcome.{mend_of, check_of};
ghost use Rattle.abi.specs.Left.{SetLeft, MendLeft};

use config::Config;
use gpi::Gpi;
use gpt::GranuleProtection;
use pa::PA;
use resolve::Refusal;
use set_table::Changed;
use stores::Tally;

// A lookup's answer, with its GPI.
#[inline(always)]
#[tactic(auto, using(crate::proofs::Few::gpis), unfolding(crate::specs::Packed::looked_packed))]
pub fn pack_looked(s: Result<Gpi, Refusal>) -> u64
    ensures { result ≡ looked_packed s }
{
    match s {
        Ok(g) => 256 * u64::from(g),
        Err(r) => u64::from(r),
    }
}

fn pack_tally(n: u64, t: Tally) -> u64
    requires { (n ≤ 10) × (t.records ≤ 13) × (t.stores ≤ 16385) }
    ensures { result ≡ n + 256 * t.records + 65536 * t.stores }
{
    n + 256 * (t.records as u64) + 65536 * (t.stores as u64)
}

// A set's answer, with its counts.
#[tactic(auto, unfolding(crate::specs::Packed::changed_packed))]
pub fn pack_changed(a: Result<Changed, Refusal>) -> u64
    requires { Small a }
    ensures { result ≡ changed_packed a }
{
    match a {
        Ok(Changed::Done(t)) => pack_tally(0, t),
        Ok(Changed::Stopped(t)) => pack_tally(10, t),
        Err(r) => u64::from(r),
    }
}

// A mend's answer, with its stores.
#[tactic(auto, unfolding(crate::specs::Packed::mended_packed))]
pub fn pack_mended(m: Result<u64, Refusal>) -> u64
    requires { Few m }
    ensures { result ≡ mended_packed m }
{
    match m {
        Ok(n) => 65536 * n,
        Err(r) => u64::from(r),
    }
}

// A check's answer, with what it says.
#[tactic(auto, unfolding(crate::specs::Packed::checked_packed))]
pub fn pack_checked(k: Result<bool, Refusal>) -> u64
    ensures { result ≡ checked_packed k }
{
    match k {
        Ok(true) => 256,
        Ok(false) => 0,
        Err(r) => u64::from(r),
    }
}

// What a call is lent besides the arena's words, of the numbers that C gives.
fn lend<'a>(
    pps: u8,
    pgs: u8,
    l0gptsz: u8,
    flags: u8,
    l0: &'a [u64],
    base: u64,
) -> GranuleProtection<'a>
    ensures config { result.config ≡ config_of pps pgs l0gptsz flags }
    ensures l0 { result.l0 ≡ l0.entry }
    ensures base { result.base.0 ≡ base }
{
    GranuleProtection {
        config: Config::from_flags(pps, pgs, l0gptsz, flags),
        l0,
        base: PA(base),
    }
}

// The GPI of an address.
#[inline(always)]
pub fn gpt_lookup(
    pps: u8,
    pgs: u8,
    l0gptsz: u8,
    flags: u8,
    l0: &[u64],
    arena: &[u64],
    base: u64,
    address: u64,
) -> u64
    ensures { result ≡ looked_packed (lookup_of (lent (config_of pps pgs l0gptsz flags) l0.now arena.now base)
        address) }
{
    let p = lend(pps, pgs, l0gptsz, flags, l0, base);
    pack_looked(p.lookup(arena, PA(address)))
}

// The granule of an address given to another world.
pub fn gpt_set(
    pps: u8,
    pgs: u8,
    l0gptsz: u8,
    flags: u8,
    l0: &[u64],
    arena: &mut [u64],
    base: u64,
    log: &mut [u64],
    address: u64,
    gpi: u64,
) -> u64
    ensures { SetLeft (set_of (lent (config_of pps pgs l0gptsz flags) l0.now arena.old base) log.old
        address gpi) result arena.new log.new }
{
    let p = lend(pps, pgs, l0gptsz, flags, l0, base);
    pack_changed(p.set(arena, log, PA(address), gpi))
}

// The L1 table of an address made normal, at most so many words of it.
#[tactic(auto, using(crate::proofs::Few::few))]
pub fn gpt_mend(
    pps: u8,
    pgs: u8,
    l0gptsz: u8,
    flags: u8,
    l0: &[u64],
    arena: &mut [u64],
    base: u64,
    address: u64,
    limit: u64,
) -> u64
    ensures { MendLeft (mend_of (lent (config_of pps pgs l0gptsz flags) l0.now arena.old base) address limit) result
        arena.new }
{
    let p = lend(pps, pgs, l0gptsz, flags, l0, base);
    pack_mended(mend::mend(&p, arena, PA(address), limit))
}

// Whether the L1 table of an address is normal.
pub fn gpt_check(
    pps: u8,
    pgs: u8,
    l0gptsz: u8,
    flags: u8,
    l0: &[u64],
    arena: &[u64],
    base: u64,
    address: u64,
) -> u64
    ensures { result ≡ checked_packed (check_of (lent (config_of pps pgs l0gptsz flags) l0.now arena.now base)
        address) }
{
    let p = lend(pps, pgs, l0gptsz, flags, l0, base);
    pack_checked(mend::check(&p, arena, PA(address)))
}
