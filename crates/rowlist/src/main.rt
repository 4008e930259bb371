// The program rowlist: reads a message, a bit count and a row from standard input, lists the rows that are consistent with them, and
// prints their number and each row in hexadecimal, or the number of a refusal. Contracts cite specs/Output.antt.
#![tactic(auto)]

ghost use Rattle.std.specs.Prelude.{◌≡◌, ◌≤◌, length, IfOk};
ghost use Rattle.bits.specs.Bits.{bytes_for};
ghost use Rattle.io.specs.Counts.{IsPrefixLen};
ghost use Rattle.consistent.specs.Consistent.{bits_of};
ghost use Rattle.rowtext.specs.Text.{Put};
ghost use Rattle.rowlist.specs.Output.{longest_text, printed};

use std::io;
use std::io::{Read, Write};

// Only so many bytes of the input are read, and the list slice has as many.
const BYTES: usize = 4096;

// The longest text that is printed.
const LONGEST_TEXT: usize = 12300;

// The bytes of a row under the layout that the message names.
fn row_bytes(msg: &[u8]) -> usize
    ensures { result ≡ bytes_for (bits_of msg.now) }
{
    if msg.len() < 8 {
        return 0;
    }
    let chunks = usize::from(msg[5]) * usize::from(msg[6]);
    (chunks * usize::from(msg[7])).div_ceil(8)
}

// Puts what is to be printed for the input at the start of a slice, and answers its length.
fn respond(input: &[u8], out: &mut [u8]) -> usize
    requires { longest_text ≤ length out.old }
    ensures { Put (printed input.now) 0 out.old out.new result
        × IsPrefixLen result out.new }
{
    let parts = rowtext::input::split(input);
    let from = parts.from;
    let to = parts.to;
    let row = parts.row;
    let mut rows: [u8; BYTES] = [0; BYTES];
    match lister::list(&input[from..to], &input[row..], parts.m, &mut rows) {
        Ok(count) => {
            let w = row_bytes(&input[from..to]);
            rowtext::output::put_count(&rows, count, w, out)
        }
        Err(q) => rowtext::output::put_refused(u32::from(q) as usize, out),
    }
}

// Reads until the slice is full or the input ends, and answers how many bytes it put at its start. A read that fails is the answer.
fn read_full<R: Read>(reader: &mut R, buf: &mut [u8]) -> io::Result<usize>
    ensures { IfOk result (λ n. IsPrefixLen n buf.new) }
{
    let mut done = 0;
    while done < buf.len() {
        let n = reader.read(&mut buf[done..])?;
        if n == 0 {
            break;
        }
        done += n;
    }
    Ok(done)
}

// A read or a write that fails ends the program with that error.
fn main(rt: HostRuntime) -> io::Result<()> {
    let mut input: [u8; BYTES] = [0; BYTES];
    let n = read_full(&mut rt.stdin(), &mut input)?;
    let mut out: [u8; LONGEST_TEXT] = [0; LONGEST_TEXT];
    let k = respond(&input[..n], &mut out);
    rt.stdout().write_all(&out[..k])
}
