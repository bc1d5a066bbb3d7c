// Replays the Rust's answers: standard input is the list that compare/ wrote (README.md), each request goes to the port by its C interface,
// and answer, GPI, barriers and every arena word are held to what the Rust did. So the gate compares with the Rust, and needs none. Nothing
// is taken on trust of the list: a number that doesn't fit what is here counts as a difference.
#![tactic(auto)]

mod records;

use records::{Arrangement, Fill, Record, read_record, words};
use std::io;
use std::io::Read;

// Stands for the answer to a call that can't be made: a number, since a list may name it as the Rust's answer, and is then equal.
const NO_ANSWER: u64 = 255;

// What the records said so far.
#[derive(Drop)]
struct State {
    // what is lent, the words that the arena is to hold, and the log's records, in fixed memory (no heap): the arrangement tells how many
    // words of each there are, and `records` how many of the log's are a set's
    l0: [u64; 4096],
    arena: [u64; 16384],
    want: [u64; 16384],
    log: [[u64; 4]; 13],
    arrangement: Arrangement,
    // the set that is being compared: its records, the next of them, and whether all was equal yet (a flag, on which no value hangs)
    records: usize,
    next: usize,
    equal: bool,
    // the counts
    asked: u64,
    differ: u64,
}

impl State {
    fn new() -> State {
        State {
            l0: [0; 4096],
            arena: [0; 16384],
            want: [0; 16384],
            log: [[0; 4]; 13],
            arrangement: Arrangement::default(),
            records: 0,
            next: 0,
            equal: true,
            asked: 0,
            differ: 0,
        }
    }

    // Counts a difference, if there is one.
    fn hold(&mut self, equal: bool) {
        if !equal {
            self.differ = self.differ.wrapping_add(1);
        }
    }

    // The arrangement of the requests that follow: all words 0.
    fn arrange(&mut self, arrangement: Arrangement) {
        self.l0.fill(0);
        self.arena.fill(0);
        self.want.fill(0);
        self.arrangement = arrangement;
    }

    // The number that the port hands back, if the arrangement fits what is here.
    fn lookup(&self, address: u64) -> Option<u64> {
        let s = self.arrangement;
        let l0 = self.l0.get(..s.l0)?;
        let arena = self.arena.get(..s.arena)?;
        Some(abi::gpt_lookup(s.pps, s.pgs, s.l0gptsz, s.flags, l0, arena, s.base, address))
    }

    fn set(&mut self, address: u64, gpi: u64) -> Option<u64> {
        let s = self.arrangement;
        let l0 = self.l0.get(..s.l0)?;
        let arena = self.arena.get_mut(..s.arena)?;
        let log = self.log.as_flattened_mut();
        Some(abi::gpt_set(
            s.pps, s.pgs, s.l0gptsz, s.flags, l0, arena, s.base, log, address, gpi,
        ))
    }

    // The port's answer, packed, against the Rust's.
    fn looked(&mut self, address: u64, answer: u64) {
        self.asked = self.asked.wrapping_add(1);
        let port = self.lookup(address).unwrap_or(NO_ANSWER);
        self.hold(port == answer);
    }

    // A set is made. Its barriers and its words follow.
    fn begin(&mut self, address: u64, answer: u64, gpi: u64) {
        self.asked = self.asked.wrapping_add(1);
        let [number, records, ..] = self.set(address, gpi).unwrap_or(NO_ANSWER).to_le_bytes();
        self.records = usize::from(records);
        self.next = 0;
        self.equal = u64::from(number) == answer;
    }

    // The next barrier's record in the set's log, if one is left, and the place after it. Barriers are the kinds 2 to 4: as numbers, which
    // the log's words are.
    fn next_barrier(&self) -> Option<(&[u64; 4], usize)> {
        self.log
            .iter()
            .zip(1..)
            .take(self.records)
            .skip(self.next)
            .find(|(record, _)| matches!(record, [2..=4, ..]))
    }

    // The Rust's next barrier is the next in the port's log.
    fn told(&mut self, barrier: [u64; 4]) {
        let Some((record, next)) = self.next_barrier() else {
            self.equal = false;
            return;
        };
        self.equal = self.equal && *record == barrier;
        self.next = next;
    }

    // No barrier is left, and every word is the Rust's.
    fn ended(&self) -> bool {
        self.next_barrier().is_none() && self.arena == self.want && self.equal
    }

    // Words of the arena, which the Rust is to have too.
    fn lend(&mut self, fill: Fill) {
        let lent = fill.made(&mut self.arena);
        self.hold(lent);
        let wanted = fill.made(&mut self.want);
        self.hold(wanted);
    }

    // A record taken into account.
    fn step(&mut self, record: Record) {
        match record {
            Record::Arranged(arrangement) => self.arrange(arrangement),
            Record::L0Words(fill) => {
                let lent = fill.made(&mut self.l0);
                self.hold(lent);
            }
            Record::ArenaWords(fill) => self.lend(fill),
            Record::Lookup { address, answer } => self.looked(address, answer),
            Record::Set {
                address,
                answer,
                gpi,
            } => self.begin(address, answer, gpi),
            Record::Barrier(barrier) => self.told(barrier),
            Record::Changed(fill) => {
                let wanted = fill.made(&mut self.want);
                self.hold(wanted);
            }
            Record::End => self.hold(self.ended()),
        }
    }
}

// The whole list: its first record says how many follow.
fn replay(rt: &impl Print, list: &mut impl Read) -> io::Result<()> {
    let mut record = [[0; 8]; 4];
    read_record(list, &mut record)?;
    let [_, count, ..] = words(record);
    let mut s = State::new();
    for _ in 0..count {
        if !read_record(list, &mut record)? {
            return println!(rt; "the list is cut short");
        }
        match Record::try_from(words(record)) {
            Ok(said) => s.step(said),
            Err(_) => s.hold(false),
        }
    }
    println!(rt; "{} replayed, {} differ", s.asked, s.differ)
}

fn main(rt: HostRuntime) -> io::Result<()> {
    replay(&rt, &mut rt.stdin())
}
