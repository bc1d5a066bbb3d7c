// The runs of addresses that a lookup answers alike: each is one line of the dump. Added by the port.
#![tactic(auto)]

ghost use Rattle.std.specs.Prelude.{◌≡◌, ◌+◌, ◌-◌, ◌*◌, ◌/◌, ◌%◌, ◌^◌, ◌≤◌, ◌<◌};
ghost use Rattle.gpt.specs.Lends.{lends};
ghost use Rattle.gpt.specs.Lookup.{lookup_of};
ghost use Rattle.dump_runs.specs.Runs.{total};
ghost use Rattle.dump_runs.specs.Inner.{answer_of, Open, Holds, First};

use config::{Config, Widths};
use dump_lines::Run;
use gpi::Gpi;
use gpt::GranuleProtection;
use pa::PA;
use resolve::{Call, Place, Refusal};
use view::{NoGpi, View};

// Tables that open, and their widths: only `dump_text::opens` makes one.
#[derive(Clone, Copy)]
pub struct Opened<'a> {
    pub tables: GranuleProtection<'a>,
    pub arena: &'a [u64],
    pub widths: Widths,
    pub ghost open: { Open (lends tables arena.now) widths },
}

// The answer at an address, and the last address of a stretch that answers so.
#[derive(Clone, Copy)]
struct Piece {
    answer: Result<Gpi, Refusal>,
    last: u64,
}

// The answer at a granule of a table, by what its view holds there.
fn answer(c: Config, h: Result<Gpi, NoGpi>) -> Result<Gpi, Refusal>
    ensures { result ≡ answer_of c h }
{
    let g = h.or(Err(Refusal::InvalidL1Entry))?;
    gpt::grant(c, g, Refusal::InvalidL1Entry)
}

// The distance of an address from the first of the aligned 2^k that holds it.
fn distance(a: u64, k: u64) -> u64
    requires { k < 64 }
    ensures { result ≡ a % 2 ^ k }
{
    a % config::pow2(k)
}

// The last address of the aligned 2^k that holds a.
fn last_of(a: u64, k: u64) -> u64
    requires { (a < 2 ^ 52) × (k ≤ 52) }
    ensures { result ≡ a / 2 ^ k * 2 ^ k + (2 ^ k - 1) }
{
    let n = config::pow2(k);
    a / n * n + (n - 1)
}

impl<'a> Opened<'a> {
    ghost use Rattle.dump_runs.specs.Opened.{lent_of};

    // The aligned stretch around an address that surely answers alike: a granule of a table, whose answer is read through the table's view,
    // else the whole L0 entry.
    fn piece_at(&self, a: u64) -> Piece
        requires a_bound { a < total self.now.widths }
        ensures { Holds (lookup_of (lent_of self.now)) (total self.now.widths) a result }
    {
        let w = self.widths;
        let c = self.tables.config;
        match self.tables.place(self.arena.len(), PA(a), Call::Plain) {
            Err(r) => Piece {
                answer: Err(r),
                last: last_of(a, w.l0gptsz),
            },
            Ok(Place::Block(g)) => Piece {
                answer: gpt::grant(c, g, Refusal::InvalidL0Entry),
                last: last_of(a, w.l0gptsz),
            },
            Ok(Place::Table(s)) => {
                let v = View::new(&self.arena[s.start..s.start + s.words], w.pgs);
                let h = v.gpi_at(distance(a, w.l0gptsz));
                Piece {
                    answer: answer(c, h),
                    last: last_of(a, w.pgs),
                }
            }
        }
    }

    // The first run from an address on: pieces are walked while they answer alike.
    pub fn next_run(&self, a: u64) -> Run
        requires a_bound { a < total self.now.widths }
        ensures { First (lookup_of (lent_of self.now)) (total self.now.widths) a result }
    {
        let end = config::pow2(self.widths.pps);
        let first = self.piece_at(a);
        let answer = first.answer;
        let mut last = first.last;
        while last + 1 < end {
            let next = self.piece_at(last + 1);
            if next.answer != answer {
                break;
            }
            last = next.last;
        }
        Run {
            start: a,
            last,
            answer,
        }
    }
}
