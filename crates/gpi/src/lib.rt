// `gpi`: GPIs and the sizes of contiguous descriptors, their numbers and back, and the table of nibbles. From table.rs: `GPIAccessType`,
// `ContigSize`.
#![tactic(auto)]

ghost use Rattle.std.specs.Prelude.{◌≡◌, true};
ghost use Rattle.std.specs.Result.{result_ok};
ghost use Rattle.gpi.specs.Gpi.{num, gpi_at, known_at};
ghost use Rattle.gpi.specs.Size.{size_num, size_at, bytes_of, smaller_of};

// Which world may use a granule: the eleven granule protection information values, by their numbers.
#[derive(Clone, Copy, PartialEq, Eq)]
pub enum Gpi {
    NoAccess = 0,
    SystemAgent = 4,
    NonSecureProtected = 5,
    NoAccess6 = 6,
    NoAccess7 = 7,
    Secure = 8,
    NonSecure = 9,
    Root = 10,
    Realm = 11,
    NonSecureOnly = 13,
    Any = 15,
}

// The range that a contiguous descriptor speaks for, by its code there.
#[derive(Clone, Copy, PartialEq, Eq)]
pub enum Size {
    MB2 = 1,
    MB32 = 2,
    MB512 = 3,
}

// A number that is no GPI's, or no size's: "unknown nibble or size refuses".
#[derive(Clone, Copy, PartialEq, Eq)]
pub struct Unknown;

// The nibbles that stand for a GPI. Each use of a constant array builds it anew, by three stores.
pub const VALID: [bool; 16] = [
    true, // 0 NoAccess
    false, // 1 reserved
    false, // 2 reserved
    false, // 3 reserved
    true, // 4 SystemAgent
    true, // 5 NonSecureProtected
    true, // 6 NoAccess6
    true, // 7 NoAccess7
    true, // 8 Secure
    true, // 9 NonSecure
    true, // 10 Root
    true, // 11 Realm
    false, // 12 reserved
    true, // 13 NonSecureOnly
    false, // 14 reserved
    true, // 15 Any
];

// Whether a number is a GPI's.
#[inline(always)]
pub fn is_valid(n: u64) -> bool
    ensures { result ≡ known_at n }
{
    if n < 16 {
        let i = n as usize;
        VALID[i]
    } else {
        false
    }
}

// The number of a GPI.
impl From<Gpi> for u64 {
    ghost from_gives = { λ g n. n ≡ num g };

    #[inline(always)]
    fn from(g: Gpi) -> u64 {
        g as u64
    }
}

// The GPI of a known number. Apart from `TryFrom`, since the table of nibbles says whether there is one, and that is asked alone too.
#[inline(always)]
fn gpi_named(n: u64) -> Gpi
    requires { known_at n ≡ true }
    ensures { n ≡ num result }
{
    match n {
        0 => Gpi::NoAccess,
        4 => Gpi::SystemAgent,
        5 => Gpi::NonSecureProtected,
        6 => Gpi::NoAccess6,
        7 => Gpi::NoAccess7,
        8 => Gpi::Secure,
        9 => Gpi::NonSecure,
        10 => Gpi::Root,
        11 => Gpi::Realm,
        13 => Gpi::NonSecureOnly,
        _ => Gpi::Any,
    }
}

// The GPI of a number: the table says whether there is one.
impl TryFrom<u64> for Gpi {
    type Error = Unknown;

    ghost try_from_gives = { λ n r. result_ok r ≡ gpi_at n };

    #[inline(always)]
    fn try_from(n: u64) -> Result<Gpi, Unknown> {
        if is_valid(n) {
            Ok(gpi_named(n))
        } else {
            Err(Unknown)
        }
    }
}

// The code of a size in a contiguous descriptor.
impl From<Size> for u64 {
    ghost from_gives = { λ s n. n ≡ size_num s };

    #[inline(always)]
    fn from(s: Size) -> u64 {
        s as u64
    }
}

// The size of a code.
impl TryFrom<u64> for Size {
    type Error = Unknown;

    ghost try_from_gives = { λ n r. result_ok r ≡ size_at n };

    #[inline(always)]
    fn try_from(n: u64) -> Result<Size, Unknown> {
        match n {
            1 => Ok(Size::MB2),
            2 => Ok(Size::MB32),
            3 => Ok(Size::MB512),
            _ => Err(Unknown),
        }
    }
}

impl Size {
    // The size in bytes.
    pub fn bytes(self) -> u64
        ensures { result ≡ bytes_of self }
    {
        match self {
            Size::MB2 => 0x20_0000,
            Size::MB32 => 0x200_0000,
            Size::MB512 => 0x2000_0000,
        }
    }

    // The next smaller size; 2 MB has none.
    pub fn next_smaller(self) -> Option<Size>
        ensures { result ≡ smaller_of self }
    {
        match self {
            Size::MB2 => None,
            Size::MB32 => Some(Size::MB2),
            Size::MB512 => Some(Size::MB32),
        }
    }
}
