// The two routines that store, each with its record, and the barriers. From gpt.rs: `fill_descs`, and the store and the barriers of `set`.
// A set writes its table only in `fill_descs` and in `store_granule`; each makes its own record with its words.
#![tactic(auto)]

ghost use Rattle.std.specs.Prelude.{◌≡◌, [], ◌∷◌, ◌+◌, ◌*◌, ◌≤◌, ◌<◌, length};
ghost use Rattle.theory.specs.Events.{granule as granule_stored};
ghost use Rattle.theory.specs.Set.{fill_event, barriers as barriers_of};
ghost use Rattle.stores.specs.Journal.{Journaled, Recorded, Space};
ghost use Rattle.stores.specs.Kind.{kind_code};

use pa::PA;

// Records and stores so far.
#[derive(Clone, Copy, Default)]
pub struct Tally {
    pub records: usize,
    pub stores: usize,
}

// The kinds of record, by their numbers in the log.
#[derive(Clone, Copy)]
enum Kind {
    Fill = 1,
    DsbOshst = 2,
    Tlbi = 3,
    DsbOsh = 4,
    Granule = 5,
}

// What a set writes: a table, the log of what is done to it, where the table stands in its arena, and the tally so far.
#[derive(Drop)]
pub struct Journal<'a> {
    pub table: &'a mut [u64],
    pub log: &'a mut [u64],
    pub offset: usize,
    pub tally: Tally,
}

impl Journal<'_> {
    // The next record. Word by word: `copy_from_slice` of the four as an array was tried, and takes twice the time of these stores.
    fn log_record(&mut self, kind: Kind, a: u64, b: u64, c: u64)
        requires { 4 * (self.old.tally.records + 1) ≤ length self.old.log.now }
        ensures { Recorded (kind_code kind ∷ a ∷ b ∷ c ∷ []) self.old self.new }
    {
        let at = 4 * self.tally.records;
        self.log[at] = kind as u64;
        self.log[at + 1] = a;
        self.log[at + 2] = b;
        self.log[at + 3] = c;
        self.tally.records += 1;
    }

    // The word, count times upward from an index, with its record; where there is nothing to fill, neither.
    #[tactic(auto, unfolding(theory::specs::Set::fill_event, theory::specs::Events::stores, theory::specs::Stores::apply, theory::specs::Stores::fill, theory::specs::Events::logged, theory::specs::Events::records, theory::specs::Events::count))]
    pub fn fill_descs(&mut self, at: usize, count: usize, word: u64)
        requires count_in_bounds { at + count ≤ length self.old.table.now }
        requires room { Space self.old 1 count }
        ensures { Journaled (fill_event at count word) self.old self.new }
    {
        if count == 0 {
            return;
        }
        let table = &mut *self.table;
        // By an index. `fill` promises the words and no order, and fills run upward (the edit `fill_downward`); `iter_mut` over the part was
        // tried, and when its borrow is over the proof knows how long the table is and not its words.
        for k in 0..count {
            table[at + k] = word;
        }
        self.log_record(Kind::Fill, (self.offset + at) as u64, count as u64, word);
        self.tally.stores += count;
    }

    // The granule store, a word with one granule new, with its record.
    pub fn store_granule(&mut self, at: usize, granule: u64, word: u64)
        requires at_in_bounds { at < length self.old.table.now }
        requires room { Space self.old 1 1 }
        ensures { Journaled (granule_stored at granule word ∷ []) self.old self.new }
    {
        self.table[at] = word;
        self.log_record(Kind::Granule, (self.offset + at) as u64, granule, word);
        self.tally.stores += 1;
    }

    // DSB OSHST, TLBI of the bytes at the address, DSB OSH.
    pub fn barriers(&mut self, address: PA, bytes: u64)
        requires { 4 * (self.old.tally.records + 3) ≤ length self.old.log.now }
        ensures { Journaled (barriers_of address.0 bytes) self.old self.new }
    {
        self.log_record(Kind::DsbOshst, 0, 0, 0);
        self.log_record(Kind::Tlbi, address.0, bytes, 0);
        self.log_record(Kind::DsbOsh, 0, 0, 0);
    }
}
