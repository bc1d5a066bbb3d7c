// `l0`: words of the L0 table, what they say, and how they are made. From table.rs: the descriptors of L0, by value.
#![tactic(auto)]

ghost use Rattle.std.specs.Prelude.{◌≡◌};
ghost use Rattle.std.specs.Result.{result_ok};
ghost use Rattle.l0.specs.L0.{l0_of, block_word, table_word_of};

use gpi::{Gpi, Unknown};
use pa::PA;

// What a valid word of the L0 table says; any other is unknown. The Rust's `Level0DescriptorRef`.
#[derive(Clone, Copy)]
pub enum L0Entry {
    Block(Gpi),
    Table(PA),
}

impl TryFrom<u64> for L0Entry {
    type Error = Unknown;

    ghost try_from_gives = { λ w r. result_ok r ≡ l0_of w };

    #[inline(always)]
    #[tactic(auto, unfolding(crate::specs::L0::l0_of))]
    fn try_from(w: u64) -> Result<L0Entry, Unknown> {
        match w % 16 {
            1 => Ok(L0Entry::Block(Gpi::try_from((w / 16) % 16)?)),
            3 => Ok(L0Entry::Table(PA(w & 0xF_FFFF_FFFF_F000))),
            _ => Err(Unknown),
        }
    }
}

// The L0 block word of a GPI.
pub fn block(g: Gpi) -> u64
    ensures { result ≡ block_word g }
{
    u64::from(g) * 16 + 1
}

// The L0 table word of an address, which must be a multiple of 4,096 below 2^52: the Rust asserts it.
#[tactic(auto, using(std::proofs::lemmas::Bool::Decides::nat_tests), unfolding(crate::specs::L0::table_word_of))]
pub fn table(a: PA) -> Option<u64>
    ensures { result ≡ table_word_of a.0 }
{
    if a.0 % 4096 != 0 {
        return None;
    }
    if 0x10_0000_0000_0000 <= a.0 {
        return None;
    }
    Some(a.0 + 3)
}
