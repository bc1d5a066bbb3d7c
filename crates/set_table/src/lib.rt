// A contiguous entry broken up: its range refilled at the next smaller size. From gpt.rs: `shatter_contig`, and the barriers after it.
// The scans after a granule store, and the fill of the largest range that matched. From gpt.rs: `can_fuse`, `fuse_descriptors`, `fuse`.
// A set of one L1 table. From gpt.rs: the second half of `set`.
#![tactic(auto)]

ghost use Rattle.std.specs.Prelude.{◌≡◌, ◌++◌, None, Ok, ◌+◌, ◌*◌, ◌≤◌, ◌<◌, ◌^◌, length};
ghost use Rattle.gpi.specs.Gpi.{num};
ghost use Rattle.gpi.specs.Size.{bytes_of};
ghost use Rattle.theory.specs.Normal.{span as span_of, at as word_at, base as base_of};
ghost use Rattle.theory.specs.Set.{barriers as barriers_of, shatter, scan, climb, fused};
ghost use Rattle.l1.specs.Arm.{arm, level_of};
ghost use Rattle.stores.specs.Done.{Room, fresh};
ghost use Rattle.stores.specs.Journal.{Journaled, Space};
ghost use Rattle.set_table.specs.Inner.{Placed, Cuts, leveled, scanned, grant_events};
ghost use Rattle.set_table.specs.Table.{Made, target_of, answer_of, happens, answers};

use gpi::{Gpi, Size};
use granules::GranuleIndex;
use l1::L1Entry;
use pa::PA;
use stores::{Journal, Tally};

// What is to be set in a table: where the table stands in its arena, the word and the granule, the words of 2 MB, the GPI, the address as
// given, and a granule's bytes. The granule is a number, and no `GranuleIndex`: what breaks up and fuses takes this too, and doesn't ask it.
#[derive(Clone, Copy)]
pub struct SetAt {
    pub offset: usize,
    pub index: usize,
    pub granule: u64,
    pub unit: usize,
    pub gpi: Gpi,
    pub address: PA,
    pub bytes: u64,
}

// What a set changed: all that it should, or all but the fuse, whose scan met an invalid word.
#[derive(Clone, Copy)]
pub enum Changed {
    Done(Tally),
    Stopped(Tally),
}

// How a range around an index is cut at the part that holds it: the fill before, and the fill after, each as a fill takes it, an index and a
// count.
#[derive(Clone, Copy)]
struct Cut {
    low: usize,
    before: usize,
    high: usize,
    after: usize,
}

fn cut_at(index: usize, part: usize) -> Cut
    requires { (0 < part) × (part ≤ 512) × (index < 2 ^ 62) }
    ensures { Cuts index part result }
{
    let whole = 16 * part;
    let low = index / whole * whole;
    let inner = index / part * part;
    let high = inner + part;
    Cut {
        low,
        before: inner - low,
        high,
        after: low + whole - high,
    }
}

// `placed` and `room` stand in each contract from here on, and in no type. The room that is left differs from step to step. That the index
// is placed is of a table and of what is to be set: `set_table` and `fuse_descriptors` have the table without a journal, and a type of the
// journal and the place together would ask more than the steps do.

// The range of a size around the index, whose GPI is g throughout, refilled at the next smaller size but for the part that holds the index:
// that part by the same rule.
pub fn shatter_contig(j: &mut Journal, q: &SetAt, size: Size, g: Gpi)
    requires placed { Placed j.old.table.now q.now.index q.now.unit }
    requires room { Space j.old (1 + 2 * level_of size) (span_of q.now.unit (level_of size)) }
    ensures { Journaled (shatter arm q.now.unit (num g) q.now.index (level_of size)) j.old j.new }
{
    let index = q.index;
    let unit = q.unit;
    let Some(smaller) = size.next_smaller() else {
        j.fill_descs(index / unit * unit, unit, granules::granule([g; 16]));
        return;
    };
    let c = cut_at(index, l1::span(unit, smaller));
    let word = l1::contig(smaller, g);
    j.fill_descs(c.low, c.before, word);
    shatter_contig(j, q, smaller, g);
    j.fill_descs(c.high, c.after, word);
}

// A contiguous entry broken up, with its barriers.
pub fn break_up(j: &mut Journal, q: &SetAt, size: Size, g: Gpi)
    requires placed { Placed j.old.table.now q.now.index q.now.unit }
    requires room { Space j.old 8 (span_of q.now.unit 2) }
    ensures { Journaled (shatter arm q.now.unit (num g) q.now.index (level_of size) ++ barriers_of q.now.address.0 (bytes_of size)) j.old j.new }
{
    shatter_contig(j, q, size, g);
    j.barriers(q.address, size.bytes());
}

// Whether the aligned range of some words around the index is all of one GPI: its words from the lowest on, up to the first that isn't. An
// invalid word that is met is told by its index.
#[tactic(auto, using(crate::proofs::Scans::scan_on, crate::proofs::Scans::scan_differs, crate::proofs::Scans::scan_ended))]
pub fn can_fuse(table: &[u64], index: usize, words: usize, g: Gpi) -> Result<bool, usize>
    requires words_nonzero { 0 < words }
    requires words_in_bounds { base_of words index + words ≤ length table.now }
    ensures { result ≡ scan arm (word_at table.now) (num g) (base_of words index) words }
{
    let low = index / words * words;
    for (i, w) in table[low..low + words].iter().enumerate() {
        if !l1::matches_gpi(*w, g).ok_or(low + i)? {
            return Ok(false);
        }
    }
    Ok(true)
}

// The largest size whose range around the index is all of one GPI: each only if the one below matched. An invalid word that a scan meets is
// told by its index.
pub fn fuse_descriptors(
    table: &[u64],
    index: usize,
    unit: usize,
    g: Gpi,
) -> Result<Option<Size>, usize>
    requires { Placed table.now index unit }
    ensures { leveled result ≡ climb arm unit (word_at table.now) (num g) index 0 (Ok None) 3 }
{
    let mut best = None;
    for size in [Size::MB2, Size::MB32, Size::MB512] {
        if !can_fuse(table, index, l1::span(unit, size), g)? {
            return Ok(best);
        }
        best = Some(size);
    }
    Ok(best)
}

// The range that matched, filled with its contiguous word.
pub fn fuse(j: &mut Journal, q: &SetAt, m: Result<Option<Size>, usize>) -> Changed
    requires placed { Placed j.old.table.now q.now.index q.now.unit }
    requires room { Space j.old 1 (span_of q.now.unit 2) }
    ensures done { Journaled (fused arm q.now.unit (num q.now.gpi) q.now.index (leveled m)) j.old j.new }
    ensures answer { result ≡ answer_of (leveled m) j.new.tally }
{
    match m {
        Ok(None) => Changed::Done(j.tally),
        Ok(Some(size)) => {
            let words = l1::span(q.unit, size);
            let word = l1::contig(size, q.gpi);
            j.fill_descs(q.index / words * words, words, word);
            Changed::Done(j.tally)
        }
        Err(_) => Changed::Stopped(j.tally),
    }
}

// The set from its granule store on, in a word of granules.
fn set_granule(j: &mut Journal, q: &SetAt) -> Changed
    requires placed { Placed j.old.table.now q.now.index q.now.unit }
    requires granule_bound { q.now.granule < 16 }
    requires room { Space j.old 5 (1 + span_of q.now.unit 2) }
    ensures done { Journaled (grant_events arm q.now.unit j.old.table.now (target_of q.now)) j.old j.new }
    ensures answer { result ≡ answer_of (scanned arm q.now.unit j.old.table.now (target_of q.now)) j.new.tally }
{
    let w = granules::set_gpi(j.table[q.index], GranuleIndex::of(q.granule), q.gpi);
    j.store_granule(q.index, q.granule, w);
    j.barriers(q.address, q.bytes);
    // Lent by name: of `&j.table[..]` the proof would know the length alone.
    let words = &mut *j.table;
    let m = fuse_descriptors(&words[..], q.index, q.unit, q.gpi);
    fuse(j, q, m)
}

// A set of one table: nothing where the word at the index is invalid, and nothing is changed then.
pub fn set_table(table: &mut [u64], log: &mut [u64], q: &SetAt) -> Option<Changed>
    requires placed { Placed table.old q.now.index q.now.unit }
    requires granule_bound { q.now.granule < 16 }
    requires room { Room table.old log.old q.now.offset fresh 13 (2 * span_of q.now.unit 2 + 1) }
    ensures { Made q.now.offset (happens q.now table.old) (answers q.now table.old)
        table.old table.new log.old log.new fresh result }
{
    let entry = L1Entry::try_from(table[q.index]).ok()?;
    let mut j = Journal {
        table,
        log,
        offset: q.offset,
        tally: Tally::default(),
    };
    if let L1Entry::Contiguous(g, size) = entry {
        break_up(&mut j, q, size, g);
    }
    Some(set_granule(&mut j, q))
}
