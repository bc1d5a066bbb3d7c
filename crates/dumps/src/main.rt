// The dump of many small images, each a file of data/ that images/make made of a text in images/. The buffer has room for one line or two,
// so that each text comes in many chunks. Crate `dumps`.
#![tactic(auto)]

use std::rt::Files;
use std::{fs, io};

// The images, in the order in which their dumps are written.
const IMAGES: [&str; 41] = [
    // versions
    "empty.gpt",
    "version_0.gpt",
    "version_2.gpt",
    // shorts
    "version_only.gpt",
    "head_cut.gpt",
    "word_cut.gpt",
    "no_words.gpt",
    "short_and_long.gpt",
    // counts
    "l0_65.gpt",
    "arena_4097.gpt",
    "counts_most.gpt",
    // lengths
    "length_53.gpt",
    "length_most.gpt",
    "byte_more.gpt",
    "bad_and_off.gpt",
    "largest_more.gpt",
    "largest_much_more.gpt",
    // fields
    "pps_7.gpt",
    "pgs_3.gpt",
    "l0gptsz_1.gpt",
    "widths.gpt",
    "off.gpt",
    // lent
    "few.gpt",
    "pps_6.gpt",
    "base_odd.gpt",
    "base_high.gpt",
    "base_most.gpt",
    // blocks
    "b.gpt",
    "largest.gpt",
    "top.gpt",
    "surplus.gpt",
    "gpis.gpt",
    "plain.gpt",
    "features.gpt",
    // tables
    "kinds.gpt",
    "granules_4k.gpt",
    "granules_16k.gpt",
    "granules_64k.gpt",
    "offset.gpt",
    "merged.gpt",
    "wide.gpt",
];

// An image's name on a line, and its dump.
fn show(rt: &(impl Files + Print + Eprint), path: &str) -> io::Result<()> {
    let mut f = match fs::open(rt, path) {
        Ok(f) => f,
        Err(e) => return eprintln!(rt; "{path}: {e}"),
    };
    println!(rt; "{path}")?;
    let mut to = io::writer(rt);
    let mut out = [0u8; 99];
    if !dump_stream::show(&mut f, &mut to, &mut out)? {
        println!(rt; "not whole")?;
    }
    Ok(())
}

fn main(rt: HostRuntime) -> io::Result<()> {
    for path in IMAGES {
        show(&rt, path)?;
    }
    Ok(())
}
