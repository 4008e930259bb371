// The lines that are printed, put into a slice one after another. Each function answers the place after what it put.
ghost use Rattle.std.specs.Prelude.{◌≡◌, ◌+◌, ◌*◌, ◌≤◌, ◌<◌, length};
ghost use mathlib.Core.List.{[], ◌∷◌, ◌++◌, flat_map};
ghost use Rattle.bits.specs.Bits.{cut};
ghost use Rattle.rowtext.specs.Text.{hex_digit, hex_byte, row_line, line_feed, decimal, count_text, refused_text, Put};

// A hexadecimal digit.
fn hex_digit(d: u8) -> u8
    requires { d < 16 }
    ensures { result ≡ hex_digit d }
{
    if d < 10 { b'0' + d } else { b'A' + (d - 10) }
}

// One character.
fn put_char(b: u8, out: &mut [u8], at: usize) -> usize
    requires { at < length out.old }
    ensures { Put (b ∷ []) at out.old out.new result }
{
    out[at] = b;
    at + 1
}

// A byte in hexadecimal.
fn put_hex(b: u8, out: &mut [u8], at: usize) -> usize
    requires { at + 2 ≤ length out.old }
    ensures { Put (hex_byte b) at out.old out.new result }
{
    let next = put_char(hex_digit(b / 16), out, at);
    put_char(hex_digit(b % 16), out, next)
}

// A row's line.
fn put_row(row: &[u8], out: &mut [u8], at: usize) -> usize
    requires { at + (length row.now * 2 + 1) ≤ length out.old }
    ensures { Put (row_line row.now) at out.old out.new result }
{
    let mut next = at;
    for b in row {
        next = put_hex(*b, out, next);
    }
    put_char(b'\n', out, next)
}

// The lines of the first count rows of w bytes in a slice.
fn put_rows(list: &[u8], count: usize, w: usize, out: &mut [u8], at: usize) -> usize
    requires { (count * w ≤ length list.now) × (at + count * (w * 2 + 1) ≤ length out.old) }
    ensures { Put (flat_map row_line (cut count w list.now)) at out.old out.new result }
{
    let mut next = at;
    for i in 0..count {
        let from = i * w;
        next = put_row(&list[from..from + w], out, next);
    }
    next
}

// A number in decimal.
fn put_decimal(n: usize, out: &mut [u8], at: usize) -> usize
    requires { at + length (decimal n) ≤ length out.old }
    ensures { Put (decimal n) at out.old out.new result }
{
    if n < 10 {
        return put_char(b'0' + n as u8, out, at);
    }
    let next = put_decimal(n / 10, out, at);
    put_char(b'0' + (n % 10) as u8, out, next)
}

// A line that begins with a word and ends with a number below a hundred thousand.
fn put_header(word: &[u8], n: usize, out: &mut [u8]) -> usize
    requires { (n < 100000) × (length word.now + 6 ≤ length out.old) }
    ensures { Put (word.now ++ decimal n ++ line_feed) 0 out.old out.new result }
{
    out[..word.len()].copy_from_slice(word);
    let next = put_decimal(n, out, word.len());
    put_char(b'\n', out, next)
}

// What is printed for the first count rows of w bytes in a slice.
pub fn put_count(list: &[u8], count: usize, w: usize, out: &mut [u8]) -> usize
    requires { (count < 100000) × ((count * w ≤ length list.now) × (12 + count * (w * 2 + 1) ≤ length out.old)) }
    ensures { Put (count_text (cut count w list.now)) 0 out.old out.new result }
{
    let next = put_header(b"count ", count, out);
    put_rows(list, count, w, out, next)
}

// What is printed for a refusal.
pub fn put_refused(number: usize, out: &mut [u8]) -> usize
    requires { (number < 100000) × (14 ≤ length out.old) }
    ensures { Put (refused_text number) 0 out.old out.new result }
{
    put_header(b"refused ", number, out)
}
