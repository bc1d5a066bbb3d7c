// The four calls of the C interface, which `abi_c` exports, in arrangement B: the packed number of each (docs/ABI.md).
use crate::base::{Arrangement, L0};
use std::io;

// PPS 0, PGS 1, L0GPTSZ 0; of the flags GPC alone.
pub fn run(rt: &impl Print) -> io::Result<()> {
    let mut b = Arrangement::new();
    let base = 0x8000_0000;
    let target = 0x4000_0000;
    let lookup = abi::gpt_lookup(0, 1, 0, 1, &L0, &b.arena, base, target);
    print!(rt; "gpt_lookup: {lookup}")?;
    let set = abi::gpt_set(0, 1, 0, 1, &L0, &mut b.arena, base, &mut b.log, target, 11);
    print!(rt; ", gpt_set: {set}")?;
    let check = abi::gpt_check(0, 1, 0, 1, &L0, &b.arena, base, target);
    print!(rt; ", gpt_check: {check}")?;
    let mend = abi::gpt_mend(0, 1, 0, 1, &L0, &mut b.arena, base, 0xC000_0000, 1);
    println!(rt; ", gpt_mend: {mend}")
}
