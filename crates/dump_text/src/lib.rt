// The dump's text, made in chunks into a lent buffer. Added by the port. Crate `dump_text`.
#![tactic(auto)]

ghost use Rattle.std.specs.Prelude.{◌≡◌, ◌+◌, ◌*◌, ◌≤◌, ◌<◌, ◌^◌, length, IfErr, IfOk};
ghost use Rattle.gpt.specs.Lends.{lends};
ghost use Rattle.gpt.specs.Lookup.{lookup_of};
ghost use Rattle.dump_lines.specs.Lines.{told};
ghost use Rattle.dump_runs.specs.Opened.{lent_of};
ghost use Rattle.dump_text.specs.Text.{lent_by};
ghost use Rattle.dump_text.specs.Opens.{Shows, Shuts};
ghost use Rattle.dump_text.specs.Chunks.{one_step, open_steps, table_steps, dump_steps, Chunked};

use dump_image::Image;
use dump_runs::Opened;
use gpt::GranuleProtection;
use pa::PA;
use resolve::Refusal;

// What a chunk is: how many bytes of the buffer were written, the place to go on from, and whether nothing is left.
// The place 0 is the start of the text, and 1 + a the line of the address a. A flag beside the place, and no enum: it is public, and
// docs/DUMP.md names its fields. `written` stands beside no buffer of its own: the text lies in the caller's (no heap).
#[derive(Clone, Copy)]
pub struct Chunk {
    pub written: usize,
    pub next: u64,
    pub done: bool,
}

// One line alone: what is said, and a number.
fn told_chunk(what: &[u8], n: u64, at: u64, out: &mut [u8]) -> Chunk
    requires { length what.now < 2 ^ 32 }
    ensures { Chunked (one_step (told what.now n)) at 0 out.old out.new result }
{
    if at != 0 {
        return Chunk {
            written: 0,
            next: at,
            done: true,
        };
    }
    if out.len() < dump_lines::told_len(what, n) {
        return Chunk {
            written: 0,
            next: at,
            done: false,
        };
    }
    Chunk {
        written: dump_lines::put_told(out, 0, what, n),
        next: 1,
        done: true,
    }
}

// As many whole lines of runs as fit behind the bytes that are filled.
fn runs_chunk(t: &Opened, at: u64, filled: usize, out: &mut [u8]) -> Chunk
    requires at_nonzero { (0 < at) × (filled ≤ length out.old) }
    ensures { Chunked (open_steps (lookup_of (lent_of t.now)) t.now.widths) at filled
        out.old out.new result }
{
    let end = config::pow2(t.widths.pps);
    let mut k = filled;
    let mut next = at;
    while next <= end {
        let r = t.next_run(next - 1);
        let answer = r.answer;
        if out.len() - k < dump_lines::line_len(answer) {
            return Chunk {
                written: k,
                next,
                done: false,
            };
        }
        k = dump_lines::put_line(out, k, r);
        next = r.last + 2;
    }
    Chunk {
        written: k,
        next,
        done: true,
    }
}

// The header, where the place is the start, and the lines of the runs.
fn open_chunk(t: &Opened, at: u64, out: &mut [u8]) -> Chunk
    ensures { Chunked (open_steps (lookup_of (lent_of t.now)) t.now.widths) at 0
        out.old out.new result }
{
    if at != 0 {
        return runs_chunk(t, at, 0, out);
    }
    let w = t.widths;
    if out.len() < dump_lines::header_len(w.pps, w.pgs, w.l0gptsz) {
        return Chunk {
            written: 0,
            next: at,
            done: false,
        };
    }
    let n = dump_lines::put_header(out, 0, w.pps, w.pgs, w.l0gptsz);
    runs_chunk(t, 1, n, out)
}

// Tables that are shown, or the refusal that shuts them out: 1 to 4 don't depend on the address. By their numbers, as document 01 names
// them: an or-pattern was tried, and leaves the proof no fact of which one it was.
#[tactic(auto, using(std::proofs::lemmas::Bool::Decides::nat_tests, crate::proofs::Opened::untaken))]
fn opens<'a>(p: &GranuleProtection<'a>, arena: &'a [u64]) -> Result<Opened<'a>, Refusal>
    ensures shown { IfOk result (Shows (lends p.now arena.now)) }
    ensures refused { IfErr result (Shuts (lends p.now arena.now)) }
{
    let w = p.config.configure()?;
    match p.lookup(arena, PA(0)) {
        Err(r) if u64::from(r) <= 4 => Err(r),
        _ => Ok(Opened {
            tables: *p,
            arena,
            widths: w,
        }),
    }
}

// The text of tables that a caller has, from a place on, as much of it as fits.
pub fn table_chunk(p: &GranuleProtection, arena: &[u64], at: u64, out: &mut [u8]) -> Chunk
    ensures { Chunked (table_steps (lends p.now arena.now)) at 0 out.old
        out.new result }
{
    match opens(p, arena) {
        Ok(t) => open_chunk(&t, at, out),
        Err(r) => told_chunk(b"refused ", u64::from(r), at, out),
    }
}

// The text of a whole image, its words copied into lent rooms of their counts.
fn loaded_chunk(
    s: &[u8],
    f: Image,
    l0: &mut [u64],
    arena: &mut [u64],
    at: u64,
    out: &mut [u8],
) -> Chunk
    requires { (length l0.old ≡ f.l0) × (length arena.old ≡ f.arena) × (f.words + 8 * (f.l0 + f.arena) ≤ length s.now) }
    ensures { Chunked (table_steps (lent_by s.now f)) at 0
        out.old out.new result }
{
    dump_image::copy_words(s, f.words, l0);
    dump_image::copy_words(s, f.words + 8 * l0.len(), arena);
    let p = GranuleProtection {
        config: f.config,
        l0,
        base: f.base,
    };
    table_chunk(&p, arena, at, out)
}

// The dump of an image, from a place on: as many of its lines as fit into the buffer. A buffer of 47 bytes has room for any line.
pub fn dump_chunk(s: &[u8], at: u64, out: &mut [u8]) -> Chunk
    ensures { Chunked (dump_steps s.now) at 0 out.old out.new result }
{
    // Rooms for the most words that an image has.
    let mut l0 = [0; 64];
    let mut arena = [0; 4096];
    match dump_image::parse(s) {
        Ok(f) => loaded_chunk(s, f, &mut l0[..f.l0], &mut arena[..f.arena], at, out),
        Err(e) => told_chunk(b"bad image ", u64::from(e), at, out),
    }
}
