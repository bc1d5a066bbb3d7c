// Document 01's cases C1 to C12, run through the compiled code: a line for each, held to the stored output, which was written from the
// document; the calls of the C interface (`exports`); and demand 3 on C7 (`cuts`).
#![tactic(auto)]

mod base;
mod cuts;
mod exports;

use base::{Arrangement, PARTS_AFTER_C7, Part, changed, fields, looked};
use std::io;

fn lookups(rt: &impl Print) -> io::Result<()> {
    let mut b = Arrangement::new();
    b.lookup(rt, "C1 lookup ", 0x3FFF_FFFF)?;
    b.lookup(rt, "C2 lookup ", 0x4000_0000)?;
    b.lookup(rt, "C3 lookup ", 0xC000_0000)?;
    b.lookup(rt, "C4 lookup ", 0x1_0000_0000)?;
    b.arena[0] = 0x0A1;
    b.lookup(rt, "C5 lookup ", 0x4000_0000)?;
    let off = "C6 lookup, GPC off, ";
    looked(rt, "C6 lookup ", fields(4, true), &b.arena, 0x4000_0000)?;
    looked(rt, off, fields(4, false), &b.arena, 0x4000_0000)
}

fn sets(rt: &impl Print) -> io::Result<()> {
    let mut b = Arrangement::new();
    b.set(rt, "C7 set ", 0x4000_0000, 11)?;
    b.show(rt, &PARTS_AFTER_C7)?;
    b.set(rt, "C8 set ", 0x4000_0000, 10)?;
    b.show(rt, &[Part::new(0, 1024, 0x3A1)])
}

fn more_sets(rt: &impl Print) -> io::Result<()> {
    let mut b = Arrangement::new();
    b.arena[0] = 0xAAAA_AAAA_AAAA_AAAA;
    b.arena[1] = 0x2;
    b.set(rt, "C9 set ", 0x4000_0000, 10)?;
    b.set(rt, "C9 set ", 0x4000_0000, 11)?;
    b.set(rt, "C10 set ", 0x0, 9)?;
    b.set(rt, "C11 set ", 0x4000_0000, 13)
}

// The set breaks up the 2 MB entry at its address, and then its scan of 32 MB meets an invalid word: 10, with nothing fused.
fn stopped_after_shatter(rt: &impl Print) -> io::Result<()> {
    let mut b = Arrangement::new();
    b.arena[0] = 0x1A1;
    b.arena[1] = 0x1A1;
    b.arena[2] = 0x2;
    b.set(rt, "10 after a shatter: set ", 0x4000_0000, 10)?;
    let parts = [
        Part::new(0, 2, 0xAAAA_AAAA_AAAA_AAAA),
        Part::new(2, 3, 0x2),
        Part::new(3, 1024, 0x3A1),
    ];
    b.show(rt, &parts)
}

fn short_lents(rt: &impl Print) -> io::Result<()> {
    let mut b = Arrangement::new();
    let arena = &b.arena[..1023];
    looked(
        rt,
        "C12 lookup in 1,023 words ",
        fields(0, true),
        arena,
        0x4000_0000,
    )?;
    let mut log = [7; 51];
    changed(
        rt,
        "C12 log of 51 words: set ",
        &mut b.arena,
        &mut log,
        0x4000_0000,
        11,
    )?;
    b.set(rt, "C12 log of 52 words: set ", 0x4000_0000, 11)
}

fn main(rt: HostRuntime) -> io::Result<()> {
    lookups(&rt)?;
    sets(&rt)?;
    more_sets(&rt)?;
    stopped_after_shatter(&rt)?;
    short_lents(&rt)?;
    exports::run(&rt)?;
    cuts::run(&rt)
}
