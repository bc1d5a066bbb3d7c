// Document 01's base arrangement B, and how a call in it is shown: a line for each.

use config::Config;
use gpt::GranuleProtection;
use pa::PA;
use set_table::Changed;
use std::io;

pub const L0: [u64; 4] = [0x91, 0x8000_0003, 0x01, 0x0];

// A part of the arena, from an index up to another as a line shows them, and the word that it is said to hold.
#[derive(Clone, Copy)]
pub struct Part {
    pub from: usize,
    pub to: usize,
    pub word: u64,
}

// What C7 leaves: granule 0 of GPI 11 and every other Root.
pub const PARTS_AFTER_C7: [Part; 5] = [
    Part {
        from: 0,
        to: 1,
        word: 0xAAAA_AAAA_AAAA_AAAB,
    },
    Part {
        from: 1,
        to: 2,
        word: 0xAAAA_AAAA_AAAA_AAAA,
    },
    Part {
        from: 2,
        to: 32,
        word: 0x1A1,
    },
    Part {
        from: 32,
        to: 512,
        word: 0x2A1,
    },
    Part {
        from: 512,
        to: 1024,
        word: 0x3A1,
    },
];

impl Part {
    // The words from one index up to another.
    pub fn new(from: usize, to: usize, word: u64) -> Part {
        Part { from, to, word }
    }

    // How many words of the part are as said.
    pub fn alike(self, words: &[u64]) -> usize {
        let said = self.word;
        words
            .iter()
            .take(self.to)
            .skip(self.from)
            .filter(|w| **w == said)
            .count()
    }

    // Whether each word of the part is there and as said.
    pub fn holds(self, words: &[u64]) -> bool {
        self.from <= self.to && self.alike(words) == self.to - self.from
    }
}

// The arena and the log that calls in B are lent. Every word of the arena is Root's, of 512 MB.
#[derive(Drop)]
pub struct Arrangement {
    pub arena: [u64; 1024],
    pub log: [u64; 52],
}

impl Arrangement {
    pub fn new() -> Arrangement {
        Arrangement {
            arena: [0x3A1; 1024],
            log: [7; 52],
        }
    }

    pub fn lookup(&self, rt: &impl Print, name: &str, address: u64) -> io::Result<()> {
        looked(rt, name, fields(0, true), &self.arena, address)
    }

    pub fn set(&mut self, rt: &impl Print, name: &str, address: u64, gpi: u64) -> io::Result<()> {
        changed(rt, name, &mut self.arena, &mut self.log, address, gpi)
    }

    pub fn show(&self, rt: &impl Print, parts: &[Part]) -> io::Result<()> {
        for part in parts {
            let from = part.from;
            let to = part.to;
            let count = part.alike(&self.arena);
            println!(rt; "  words {from} up to {to} as said: {count}")?;
        }
        Ok(())
    }
}

// B's fields, with L0GPTSZ and GPC as a case asks.
pub fn fields(l0gptsz: u8, gpc: bool) -> Config {
    Config::from_flags(0, 1, l0gptsz, u8::from(gpc))
}

// B's L0 words and base, with these fields.
pub fn protection<'a>(config: Config) -> GranuleProtection<'a> {
    GranuleProtection {
        config,
        l0: &L0,
        base: PA(0x8000_0000),
    }
}

// A lookup: its number, and its GPI where there is one.
pub fn looked(
    rt: &impl Print,
    name: &str,
    c: Config,
    arena: &[u64],
    address: u64,
) -> io::Result<()> {
    print!(rt; "{name}{address}: ")?;
    match protection(c).lookup(arena, PA(address)) {
        Ok(g) => println!(rt; "0, GPI {}", u64::from(g)),
        Err(r) => println!(rt; "{}", u64::from(r)),
    }
}

// A set: its number and its counts.
pub fn changed(
    rt: &impl Print,
    name: &str,
    arena: &mut [u64],
    log: &mut [u64],
    address: u64,
    gpi: u64,
) -> io::Result<()> {
    print!(rt; "{name}{address} to {gpi}: ")?;
    match protection(fields(0, true)).set(arena, log, PA(address), gpi) {
        Ok(Changed::Done(t)) => println!(rt; "0, stores {}, records {}", t.stores, t.records),
        Ok(Changed::Stopped(t)) => println!(rt; "10, stores {}, records {}", t.stores, t.records),
        Err(r) => println!(rt; "{}", u64::from(r)),
    }
}
