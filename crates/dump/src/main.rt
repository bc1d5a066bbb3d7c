// The dump: an image on standard input, its text on standard output. All of the text is made by the library `dump_text`. Crate `dump`.
#![tactic(auto)]

use std::io;

fn main(rt: HostRuntime) -> io::Result<()> {
    // Room for many lines, so that few writes are made.
    let mut out = [0; 65536];
    let mut from = rt.stdin();
    let mut to = rt.stdout();
    dump_stream::show(&mut from, &mut to, &mut out)?;
    Ok(())
}
