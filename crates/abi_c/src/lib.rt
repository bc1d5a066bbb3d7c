// The C interface's exports: docs/ABI.md. A static library over `abi`: each export is the function of that name there, and says what it says.
// Twice, since a crate is a library or a static library and not both.
#![tactic(auto)]

ghost use Rattle.std.specs.Prelude.{◌≡◌};
ghost use Rattle.abi.specs.Packed.{looked_packed, checked_packed};
ghost use Rattle.abi.specs.Left.{SetLeft, MendLeft};
ghost use Rattle.config.specs.Flags.{config_of};
ghost use Rattle.resolve.specs.Lent.{lent};
ghost use Rattle.gpt.specs.Lookup.{lookup_of};
ghost use Rattle.gpt.specs.Set.{set_of};
ghost use Rattle.mend.specs.Outcome.{mend_of, check_of};

// The GPI of an address.
#[unsafe(no_mangle)]
pub extern "C" fn gpt_lookup(
    pps: u8,
    pgs: u8,
    l0gptsz: u8,
    flags: u8,
    l0: &[u64],
    arena: &[u64],
    base: u64,
    address: u64,
) -> u64
    ensures { result ≡ looked_packed (lookup_of (lent (config_of pps pgs l0gptsz flags) l0.now arena.now base)
        address) }
{
    abi::gpt_lookup(pps, pgs, l0gptsz, flags, l0, arena, base, address)
}

// The granule of an address given to another world.
#[unsafe(no_mangle)]
pub extern "C" fn gpt_set(
    pps: u8,
    pgs: u8,
    l0gptsz: u8,
    flags: u8,
    l0: &[u64],
    arena: &mut [u64],
    base: u64,
    log: &mut [u64],
    address: u64,
    gpi: u64,
) -> u64
    ensures { SetLeft (set_of (lent (config_of pps pgs l0gptsz flags) l0.now arena.old base) log.old
        address gpi) result arena.new log.new }
{
    abi::gpt_set(pps, pgs, l0gptsz, flags, l0, arena, base, log, address, gpi)
}

// The L1 table of an address made normal, at most so many words of it.
#[unsafe(no_mangle)]
pub extern "C" fn gpt_mend(
    pps: u8,
    pgs: u8,
    l0gptsz: u8,
    flags: u8,
    l0: &[u64],
    arena: &mut [u64],
    base: u64,
    address: u64,
    limit: u64,
) -> u64
    ensures { MendLeft (mend_of (lent (config_of pps pgs l0gptsz flags) l0.now arena.old base) address limit) result
        arena.new }
{
    abi::gpt_mend(pps, pgs, l0gptsz, flags, l0, arena, base, address, limit)
}

// Whether the L1 table of an address is normal.
#[unsafe(no_mangle)]
pub extern "C" fn gpt_check(
    pps: u8,
    pgs: u8,
    l0gptsz: u8,
    flags: u8,
    l0: &[u64],
    arena: &[u64],
    base: u64,
    address: u64,
) -> u64
    ensures { result ≡ checked_packed (check_of (lent (config_of pps pgs l0gptsz flags) l0.now arena.now base)
        address) }
{
    abi::gpt_check(pps, pgs, l0gptsz, flags, l0, arena, base, address)
}
