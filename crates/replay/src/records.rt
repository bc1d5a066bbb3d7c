// The list's records: how they are read, and what each says (README.md).

use std::io;
use std::io::{ErrorKind, Read};

// The next record of the list, each word lowest byte first: whether it is whole. Of one that is cut short, what there is stands at its
// start.
pub fn read_record(list: &mut impl Read, record: &mut [[u8; 8]; 4]) -> io::Result<bool> {
    match list.read_exact(record.as_flattened_mut()) {
        Ok(()) => Ok(true),
        Err(e) if e.kind() == ErrorKind::UnexpectedEof => Ok(false),
        Err(e) => Err(e),
    }
}

// The words of a record.
pub fn words(record: [[u8; 8]; 4]) -> [u64; 4] {
    record.map(u64::from_le_bytes)
}

// The arrangement of the calls: the fields, where the arena lies, and how many words of the arena and of L0 are lent.
#[derive(Clone, Copy, Default)]
pub struct Arrangement {
    pub pps: u8,
    pub pgs: u8,
    pub l0gptsz: u8,
    pub flags: u8,
    pub base: u64,
    pub arena: usize,
    pub l0: usize,
}

// So many words from one on, and what they are made.
#[derive(Clone, Copy)]
pub struct Fill {
    pub at: usize,
    pub count: usize,
    pub word: u64,
}

impl Fill {
    // Makes the words so, if they are there: whether they are.
    pub fn made(self, words: &mut [u64]) -> bool {
        let Some(from) = words.get_mut(self.at..) else {
            return false;
        };
        let Some(part) = from.get_mut(..self.count) else {
            return false;
        };
        part.fill(self.word);
        true
    }
}

// What a record says. The number of an answer of the Rust's is packed as the port's C interface packs it.
#[derive(Clone, Copy)]
pub enum Record {
    Arranged(Arrangement),
    L0Words(Fill),
    ArenaWords(Fill),
    Lookup { address: u64, answer: u64 },
    Set { address: u64, answer: u64, gpi: u64 },
    Barrier([u64; 4]),
    Changed(Fill),
    End,
}

// The words of a record of no kind.
#[derive(Clone, Copy)]
pub struct UnknownKind;

impl TryFrom<[u64; 4]> for Record {
    type Error = UnknownKind;

    fn try_from([head, a, b, c]: [u64; 4]) -> Result<Record, UnknownKind> {
        let [kind, pps, pgs, l0gptsz, flags, ..] = head.to_le_bytes();
        let fill = Fill {
            at: a as usize,
            count: b as usize,
            word: c,
        };
        match kind {
            1 => Ok(Record::Arranged(Arrangement {
                pps,
                pgs,
                l0gptsz,
                flags,
                base: a,
                arena: b as usize,
                l0: c as usize,
            })),
            2 => Ok(Record::L0Words(fill)),
            3 => Ok(Record::ArenaWords(fill)),
            4 => Ok(Record::Lookup {
                address: a,
                answer: b,
            }),
            5 => Ok(Record::Set {
                address: a,
                answer: b,
                gpi: c,
            }),
            6 => Ok(Record::Barrier([head >> 8, a, b, 0])),
            7 => Ok(Record::Changed(fill)),
            8 => Ok(Record::End),
            _ => Err(UnknownKind),
        }
    }
}
