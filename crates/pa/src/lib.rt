// `pa`: a physical address of a type of its own, so that addresses and word indices can't be mixed. From gpt.rs: `PA`.
#![tactic(auto)]

ghost use Rattle.std.specs.Prelude.{◌≡◌};
ghost use Rattle.pa.specs.Pa.{aligned_down, distance_of};

#[derive(Clone, Copy, PartialEq, Eq)]
pub struct PA(pub u64);

const LIMIT: u64 = 0x10_0000_0000_0000;

impl PA {
    // The largest multiple of the alignment that is not above this address.
    pub fn align_down(self, alignment: u64) -> PA
        ensures { result.0 ≡ aligned_down self.0 alignment }
    {
        if alignment == 0 {
            return PA(0);
        }
        PA(self.0 / alignment * alignment)
    }

    // How far this address lies above the other: below zero where it lies under it, and nothing where either is 2^52 or more. The Rust's
    // `PA - PA`.
    pub fn sub(self, other: PA) -> Option<i64>
        ensures { result ≡ distance_of self.0 other.0 }
    {
        let a = self.0;
        let b = other.0;
        if LIMIT <= a {
            return None;
        }
        if LIMIT <= b {
            return None;
        }
        Some((a as i64) - (b as i64))
    }
}
