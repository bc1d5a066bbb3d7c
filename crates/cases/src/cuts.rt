// Demand 3 on C7: its set cut after each number of stores, every granule looked up, and mends cut after each number of stores and run
// again. C7 makes 513 stores, of which the granule store is the last.

use crate::base::{Arrangement, PARTS_AFTER_C7, Part, fields, protection};
use pa::PA;
use std::io;

// The kinds of records that tell stores: of one word many times, and of the granule's word. As numbers, which the log's words are.
const FILL: u64 = 1;

const GRANULE_STORE: u64 = 5;

// The first stores of a fill of n words, at most `left`: how many of those remain.
fn redo_fill(words: &mut [u64], first: usize, n: usize, word: u64, left: usize) -> usize {
    let Some(rest) = words.get_mut(first..) else {
        return left;
    };
    let m = n.min(left).min(rest.len());
    rest[..m].fill(word);
    left - m
}

// The first `cut` stores that the log tells.
fn redo(words: &mut [u64], log: &[u64], cut: usize) {
    let mut left = cut;
    for &[kind, first, n, word] in log.as_chunks::<4>().0 {
        let count = match kind {
            FILL => n,
            GRANULE_STORE => 1,
            _ => 0,
        };
        left = redo_fill(words, first as usize, count as usize, word, left);
    }
}

// Whether an address is of this GPI.
fn is_at(arena: &[u64], address: u64, g: u64) -> bool {
    match protection(fields(0, true)).lookup(arena, PA(address)) {
        Ok(h) => u64::from(h) == g,
        Err(_) => false,
    }
}

// Whether the target, granule 0 of the table, is of this GPI and every other granule Root.
fn all_look(arena: &[u64], g: u64) -> bool {
    is_at(arena, 0x4000_0000, g)
        && (0x4001_0000..0x8000_0000)
            .step_by(0x1_0000)
            .all(|address| is_at(arena, address, 10))
}

// Whether the table is, byte for byte, the normal one of this GPI at granule 0 and Root elsewhere.
fn is_normal(arena: &[u64], g: u64) -> bool {
    if g == 10 {
        return Part::new(0, 1024, 0x3A1).holds(arena);
    }
    PARTS_AFTER_C7.iter().all(|part| part.holds(arena))
}

// A mend of the table: whether it is answered with 0.
fn mended(arena: &mut [u64], limit: u64) -> bool {
    let p = protection(fields(0, true));
    mend::mend(&p, arena, PA(0x4000_0000), limit).is_ok()
}

// Mends of the limits 0, 1, 2 up to 32, each of which may be cut, and one to the end: whether all are accepted.
fn all_mended(arena: &mut [u64]) -> bool {
    (0..=32).all(|limit| mended(arena, limit)) && mended(arena, 1024)
}

// Whether a cut is as demanded: the table looks up so, and is mended to the normal one. The granule store is the 513th.
fn cut_holds(log: &[u64], cut: usize) -> bool {
    let g = if cut < 513 { 10 } else { 11 };
    let mut arena = Arrangement::new().arena;
    redo(&mut arena, log, cut);
    all_look(&arena, g) && all_mended(&mut arena) && is_normal(&arena, g)
}

pub fn run(rt: &impl Print) -> io::Result<()> {
    let mut b = Arrangement::new();
    b.set(rt, "C7 to be cut: set ", 0x4000_0000, 11)?;
    let log = &b.log;
    let count = (0..=513).filter(|cut| cut_holds(log, *cut)).count();
    println!(rt; "  of 514 cuts, with 16384 lookups and 34 mends each, as demanded: {count}")
}
