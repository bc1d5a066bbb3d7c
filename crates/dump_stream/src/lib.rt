// The dump of an image read from a reader, written to a writer chunk after chunk. Added by the port. Crate `dump_stream`.
#![tactic(auto)]

ghost use Rattle.std.specs.Io.{ReadsAtMost};

use std::io;
use std::io::{Read, Write};

// The dump of an image, through a lent buffer; whether all of it was written. It ends early where the buffer has no room for a line, which is
// never longer than 47 bytes. A write that fails is its error.
pub fn print<W: Write>(file: &mut W, image: &[u8], out: &mut [u8]) -> io::Result<bool> {
    let mut at: u64 = 0;
    loop {
        let c = dump_text::dump_chunk(image, at, out);
        let n = c.written;
        file.write_all(&out[..n])?;
        if c.done {
            return Ok(true);
        }
        if c.next <= at {
            return Ok(false);
        }
        at = c.next;
    }
}

// Reads until the buffer is full or the input ends: how many bytes stand at its start. A loop, since std's `read_exact` doesn't tell how many
// there were, and `read_to_end` needs the heap.
fn read_full<R: Read>(from: &mut R, buf: &mut [u8]) -> io::Result<usize>
    ensures { ReadsAtMost result buf.new }
{
    let mut done = 0;
    while done < buf.len() {
        let n = from.read(&mut buf[done..])?;
        if n == 0 {
            break;
        }
        done += n;
    }
    Ok(done)
}

// The dump of the image that a reader gives, through a lent buffer; whether all of it was written. A read or write that fails is its error.
pub fn show<R: Read, W: Write>(from: &mut R, to: &mut W, out: &mut [u8]) -> io::Result<bool> {
    // One byte more than the longest image, of 25 + 8 * (64 + 4096) bytes: that byte tells an image with bytes after it.
    let mut image = [0; 33306];
    let n = read_full(from, &mut image)?;
    print(to, &image[..n], out)
}
