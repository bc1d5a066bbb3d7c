// mend_table: the mend and the check of one L1 table. Added by the port: the Rust has neither.
// Both go down the sizes. A range is judged: one of one GPI is to be that contiguous word, any other is judged by its sixteen parts, and a
// 2 MB part by its words. Mend makes the words so, the check asks whether they are. So a word is read a few times, whatever the table
// holds: for each size, and where it is written; never a whole range again for each word. A range is a slice: its parts are slices of it.
// That it is one of a size stands in each contract (`Ranges`): a struct around the slice would be built and taken apart at each call.
#![tactic(auto)]

ghost use Rattle.std.specs.Prelude.{◌≡◌, ◌<◌, List, [], ◌∷◌, length};
ghost use Rattle.theory.specs.Normal.{at};
ghost use Rattle.theory.specs.Inner.{walked, step, Goes};
ghost use Rattle.l1.specs.Arm.{level_of, arm};
ghost use Rattle.mend_table.specs.Inner.{wanted_at, Ranges, OneIs, Judges, Mends, Fits};
ghost use Rattle.mend_table.specs.Mend.{Regions, Repaired};
ghost use Rattle.mend_table.specs.Normal.{is_normal};

use gpi::{Gpi, Size};

// What a range is to be: this word throughout, or where there is none each word its own granules; or what its sixteen parts of this size
// are to be. An enum: neither is the other's absence or refusal, as in an Option or a Result.
#[derive(Clone, Copy)]
enum Judged {
    Words(Option<u64>),
    Parts(Size),
}

// The stores of a mend: how many it may make, and how many it has made.
#[derive(Clone, Copy)]
struct Stores {
    limit: u64,
    made: u64,
}

impl Stores {
    // The word becomes w if it differs and fewer stores are made than the limit. The only place that stores.
    fn put(&mut self, word: &mut u64, w: u64)
        ensures limit { self.new.limit ≡ self.old.limit }
        ensures stored { walked (word.new ∷ []) self.new.made ≡ step self.old.limit (λ _. w) 0 (walked (word.old ∷ []) self.old.made) }
    {
        if *word == w {
            return;
        }
        if self.made < self.limit {
            *word = w;
            self.made += 1;
        }
    }
}

// The word that v is to be: the one wanted, or else its granules.
fn wanted(want: Option<u64>, v: u64) -> u64
    ensures { result ≡ wanted_at arm want v }
{
    want.unwrap_or_else(|| l1::flat(v))
}

// The one GPI of a range that is valid throughout and of one. No word's sixteen nibbles are looked at: the lowest word's granules are one
// GPI sixteen times, and every other word's granules are the same. Most words are equal to the lowest: their granules aren't asked for.
fn one_gpi(t: &[u64]) -> Option<Gpi>
    requires { 0 < length t.now }
    ensures { OneIs arm t.now result }
{
    let w = t[0];
    let f = l1::flat(w);
    if f != f % 16 * 0x1111_1111_1111_1111 {
        return None;
    }
    let g = Gpi::try_from(f % 16).ok()?;
    if t.iter().all(|v| *v == w || l1::flat(*v) == f) {
        Some(g)
    } else {
        None
    }
}

// What a range of size s is to be. Mend and the check both ask here.
fn judge(t: &[u64], s: Size) -> Judged
    requires { Ranges (level_of s) (length t.now) t.now }
    ensures { Judges arm (level_of s) t.now result }
{
    match one_gpi(t) {
        Some(g) => Judged::Words(Some(l1::contig(s, g))),
        None => match s.next_smaller() {
            Some(smaller) => Judged::Parts(smaller),
            None => Judged::Words(None),
        },
    }
}

// The words become what is wanted, upward.
fn put_range(t: &mut [u64], want: Option<u64>, mut stores: Stores) -> Stores
    ensures limit { result.limit ≡ stores.limit }
    ensures goes { Goes stores.limit (λ i. wanted_at arm want (at t.old i)) 0 (length t.old) t.old stores.made t.new result.made }
{
    for word in t.iter_mut() {
        let w = wanted(want, *word);
        stores.put(word, w);
    }
    stores
}

// A range of size s becomes what it is judged to be.
#[cycle(mend_parts_mend_region)]
#[tactic(auto, using(crate::proofs::Walks::spent))]
fn mend_region(t: &mut [u64], s: Size, stores: Stores) -> Stores
    requires { Ranges (level_of s) (length t.old) t.old }
    ensures { Mends arm (level_of s) (length t.old) (length t.old) t.old stores t.new result }
{
    if stores.limit <= stores.made {
        return stores;
    }
    match judge(t, s) {
        Judged::Words(want) => put_range(t, want, stores),
        Judged::Parts(smaller) => {
            let n = t.len() / 16;
            mend_parts(t, smaller, n, stores)
        }
    }
}

// The ranges of size s, each of n words, one after another. Its `for` is by index: when the borrow of `chunks_exact_mut` is over, the proof
// knows how long the table is and not its words.
#[cycle(mend_parts_mend_region)]
fn mend_parts(t: &mut [u64], s: Size, n: usize, mut stores: Stores) -> Stores
    requires { Ranges (level_of s) n t.old }
    ensures { Mends arm (level_of s) n (length t.old) t.old stores t.new result }
{
    for p in 0..t.len() / n {
        stores = mend_region(&mut t[p * n..p * n + n], s, stores);
    }
    stores
}

// The mend of a table of whole 512 MB regions, where `unit` words are 2 MB. It hands back the stores made.
pub fn mend_table(t: &mut [u64], unit: usize, limit: u64) -> u64
    requires { Regions unit t.old }
    ensures { Repaired unit limit t.old t.new result }
{
    let n = l1::span(unit, Size::MB512);
    mend_parts(t, Size::MB512, n, Stores { limit, made: 0 }).made
}

// Whether a range of size s is what it is judged to be. `region` and `parts` go down as `mend_region` and `mend_parts` do, but no generic
// pair is plainer: they lend the words for reading alone, stop at the first that is wrong, and no limit stops them.
#[cycle(parts_region)]
fn region(t: &[u64], s: Size) -> bool
    requires { Ranges (level_of s) (length t.now) t.now }
    ensures { Fits arm (level_of s) (length t.now) (length t.now) t.now result }
{
    match judge(t, s) {
        Judged::Words(want) => t.iter().all(|v| *v == wanted(want, *v)),
        Judged::Parts(smaller) => parts(t, smaller, t.len() / 16),
    }
}

// Whether the ranges of size s, each of n words, are.
#[cycle(parts_region)]
fn parts(t: &[u64], s: Size, n: usize) -> bool
    requires { Ranges (level_of s) n t.now }
    ensures { Fits arm (level_of s) n (length t.now) t.now result }
{
    for part in t.chunks_exact(n) {
        if !region(part, s) {
            return false;
        }
    }
    true
}

// Whether a mend of the table that no limit stops would write nothing; the table is of whole 512 MB regions, `unit` words are 2 MB.
pub fn check_table(t: &[u64], unit: usize) -> bool
    requires { Regions unit t.now }
    ensures { result ≡ is_normal arm unit t.now }
{
    parts(t, Size::MB512, l1::span(unit, Size::MB512))
}
