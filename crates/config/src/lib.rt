// Crate `config`. The configuration by value, the flags as one number, the widths that the fields mean, and which GPIs are supported. From
// gpt.rs, last third: `GranuleProtectionConfig`.
// The index rules: how an address finds its L0 entry, its word and its granule, and how long tables and ranges are. From gpt.rs, last
// third: `l0_resolve`, `l1_resolve`, `granule_resolve`.
#![tactic(auto)]

ghost use Rattle.std.specs.Prelude.{◌≡◌, ◌&&◌, ◌<◌, ◌^◌};
ghost use Rattle.config.specs.Fields.{pps_width, pgs_width, l0gptsz_width, configured_of, supported_of};
ghost use Rattle.config.specs.Flags.{flag_at, config_of};
ghost use Rattle.config.specs.Index.{l0_entries, l0_index, l1_words, l1_index, granule_index, granule_bytes, size_words};

use gpi::{Gpi, Size};
use granules::GranuleIndex;
use pa::PA;
use std::marker::Model;

// The fields that a call is lent: PPS, PGS, L0GPTSZ, the flags, and the features GDI and GPC2.
#[derive(Clone, Copy, PartialEq, Eq)]
pub struct Config {
    pub pps: u8,
    pub pgs: u8,
    pub l0gptsz: u8,
    pub gpc: bool,
    pub sa: bool,
    pub nsp: bool,
    pub na6: bool,
    pub na7: bool,
    pub nso: bool,
    pub gdi: bool,
    pub gpc2: bool,
}

// Bit k of the flags: no other place knows how wide they are.
#[inline(always)]
fn flag(flags: u8, k: u8) -> bool
    requires { k < 8 }
    ensures { result ≡ flag_at flags k }
{
    (flags >> k) % 2 == 1
}

// The widths of a configuration that was taken: each is listed, and they fit each other.
#[derive(Clone, Copy)]
pub struct Widths {
    pub pps: u64,
    pub pgs: u64,
    pub l0gptsz: u64,
}

impl Model for Widths {
    ghost use Rattle.config.specs.Widths.{Bits, Listed};

    ghost Value = { Bits };

    ghost view = { λ a. record { pps = a.pps; pgs = a.pgs; l0gptsz = a.l0gptsz } };

    ghost inverse = { λ b. record { pps = b.pps; pgs = b.pgs; l0gptsz = b.l0gptsz } };

    ghost invariant = { λ a. Listed (record { pps = a.pps; pgs = a.pgs; l0gptsz = a.l0gptsz }) };
}

// Why a configuration isn't taken.
#[derive(Clone, Copy, PartialEq, Eq)]
pub enum ConfigError {
    InvalidConfiguration,
    GptNotInitialized,
}

// The address bits that a value of PPS means, where it is listed. The Rust's `ProtectedPhysicalAddressSize`: three types there, each with
// its own table, and so three functions here, of which docs/MAP.md speaks: a generic one would be lent the table, and is no plainer.
#[inline(always)]
pub fn pps_width(n: u8) -> Option<u64>
    ensures { result ≡ pps_width n }
{
    match n {
        0 => Some(32),
        1 => Some(36),
        2 => Some(40),
        3 => Some(42),
        4 => Some(44),
        5 => Some(48),
        6 => Some(52),
        _ => None,
    }
}

// The Rust's `PhysicalGranuleSize`. 1 is 64 KB.
#[inline(always)]
pub fn pgs_width(n: u8) -> Option<u64>
    ensures { result ≡ pgs_width n }
{
    match n {
        0 => Some(12),
        1 => Some(16),
        2 => Some(14),
        _ => None,
    }
}

// The Rust's `Level0GptSize`.
#[inline(always)]
pub fn l0gptsz_width(n: u8) -> Option<u64>
    ensures { result ≡ l0gptsz_width n }
{
    match n {
        0 => Some(30),
        4 => Some(34),
        6 => Some(36),
        9 => Some(39),
        _ => None,
    }
}

// 2 to the k.
#[inline(always)]
pub fn pow2(k: u64) -> u64
    requires { k < 64 }
    ensures { result ≡ 2 ^ k }
{
    1 << k
}

impl Config {
    // The configuration of three fields and the flags, as the dump image and the C interface carry them. No `From`: that has one source.
    #[inline(always)]
    pub fn from_flags(pps: u8, pgs: u8, l0gptsz: u8, flags: u8) -> Config
        ensures { result ≡ config_of pps pgs l0gptsz flags }
    {
        Config {
            pps,
            pgs,
            l0gptsz,
            gpc: flag(flags, 0),
            sa: flag(flags, 1),
            nsp: flag(flags, 2),
            na6: flag(flags, 3),
            na7: flag(flags, 4),
            nso: flag(flags, 5),
            gdi: flag(flags, 6),
            gpc2: flag(flags, 7),
        }
    }

    // The widths, or why there are none: field values, then GPC, then the widths against each other.
    #[inline(always)]
    #[tactic(auto, unfolding(crate::specs::Fields::configured_of))]
    pub fn configure(self) -> Result<Widths, ConfigError>
        ensures { result ≡ configured_of self }
    {
        let pps = pps_width(self.pps).ok_or(ConfigError::InvalidConfiguration)?;
        let pgs = pgs_width(self.pgs).ok_or(ConfigError::InvalidConfiguration)?;
        let l0gptsz = l0gptsz_width(self.l0gptsz).ok_or(ConfigError::InvalidConfiguration)?;
        if !self.gpc {
            return Err(ConfigError::GptNotInitialized);
        }
        if pps < l0gptsz {
            return Err(ConfigError::InvalidConfiguration);
        }
        Ok(Widths { pps, pgs, l0gptsz })
    }

    // Whether a GPI is supported.
    #[inline(always)]
    pub fn is_gpi_supported(self, g: Gpi) -> bool
        ensures { result ≡ supported_of self g }
    {
        match g {
            Gpi::NoAccess => true,
            Gpi::SystemAgent => self.sa && self.gdi,
            Gpi::NonSecureProtected => self.nsp && self.gdi,
            Gpi::NoAccess6 => self.na6 && self.gdi,
            Gpi::NoAccess7 => self.na7 && self.gdi,
            Gpi::Secure => true,
            Gpi::NonSecure => true,
            Gpi::Root => true,
            Gpi::Realm => true,
            Gpi::NonSecureOnly => self.nso && self.gpc2,
            Gpi::Any => true,
        }
    }
}

impl Widths {
    // The entries of the L0 table.
    #[inline(always)]
    pub fn l0_entries(self) -> u64
        ensures { result ≡ l0_entries self }
    {
        pow2(self.pps - self.l0gptsz)
    }

    // The index of an address's L0 entry.
    #[inline(always)]
    #[tactic(auto, using(crate::proofs::Geometry::masks))]
    pub fn l0_resolve(self, a: PA) -> usize
        ensures { result ≡ l0_index self a.0 }
    {
        ((a.0 & (pow2(self.pps) - 1)) >> self.l0gptsz) as usize
    }

    // The words of an L1 table.
    #[inline(always)]
    pub fn l1_words(self) -> usize
        ensures { result ≡ l1_words self }
    {
        pow2(self.l0gptsz - (self.pgs + 4)) as usize
    }

    // The index of an address's word in its L1 table.
    #[inline(always)]
    #[tactic(auto, using(crate::proofs::Geometry::masks))]
    pub fn l1_resolve(self, a: PA) -> usize
        ensures { result ≡ l1_index self a.0 }
    {
        ((a.0 & (pow2(self.l0gptsz) - 1)) >> (self.pgs + 4)) as usize
    }

    // The place of an address's granule in its word.
    #[inline(always)]
    pub fn granule_resolve(self, a: PA) -> GranuleIndex
        ensures { result ≡ granule_index self a.0 }
    {
        GranuleIndex::of(a.0 >> self.pgs)
    }

    // A granule in bytes.
    #[inline(always)]
    pub fn granule_bytes(self) -> u64
        ensures { result ≡ granule_bytes self }
    {
        pow2(self.pgs)
    }

    // The words of a size: each holds sixteen granules.
    #[inline(always)]
    pub fn size_words(self, s: Size) -> usize
        ensures { result ≡ size_words self s }
    {
        (s.bytes() >> (self.pgs + 4)) as usize
    }
}
