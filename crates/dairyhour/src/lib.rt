// The C boundary: each operation under its C name, with its answer as a plain struct. There is no logic here; each contract is
// that of the operation which it wraps. include/dairyhour.h is this boundary in C, and the crate is built as the static library.
#![tactic(auto)]

ghost use Rattle.std.specs.Prelude.{◌≡◌, length};
ghost use Rattle.vt.specs.Answer.{answer_of};
ghost use Rattle.vt.specs.Mend.{mend_refusal, mend_target};
ghost use Rattle.message.specs.Layout.{layout};
ghost use Rattle.message.specs.Write.{written_of, write_answer, write_target};
ghost use Rattle.message.specs.Read.{read_of, read_refusal, layout_answer, read_target};
ghost use Rattle.consistent.specs.List.{list_answer, list_slice};
ghost use Rattle.dairyhour.specs.Boundary.{answer_in, list_in, layout_in};

use message::Layout;
use message::layouts::Legal;
use refusal::Refusal;

// dh_answer: the refusal's number, or 0 and the value. The value of dh_list is the number of consistent rows.
#[repr(C)]
#[derive(Clone, Copy)]
pub struct Answer {
    pub refusal: u32,
    pub value: usize,
}

// dh_layout: the refusal's number, or 0 and the layout.
#[repr(C)]
#[derive(Clone, Copy)]
pub struct LayoutAnswer {
    pub refusal: u32,
    pub l1: usize,
    pub l2: usize,
    pub nc: usize,
    pub r: usize,
}

// The refusal's number, or 0 and the value.
impl From<Result<usize, Refusal>> for Answer {
    ghost from_gives = { λ r a. answer_in a ≡ written_of r };

    fn from(r: Result<usize, Refusal>) -> Answer {
        match r {
            Ok(value) => Answer { refusal: 0, value },
            Err(q) => Answer {
                refusal: u32::from(q),
                value: 0,
            },
        }
    }
}

// The same where there is no value.
impl From<Result<(), Refusal>> for Answer {
    ghost from_gives = { λ r a. answer_in a ≡ answer_of r };

    fn from(r: Result<(), Refusal>) -> Answer {
        let refusal = match r {
            Ok(()) => 0,
            Err(q) => u32::from(q),
        };
        Answer { refusal, value: 0 }
    }
}

// The same of a layout.
impl From<Result<Legal, Refusal>> for LayoutAnswer {
    ghost from_gives = { λ r a. layout_in a ≡ read_of r };

    fn from(r: Result<Legal, Refusal>) -> LayoutAnswer {
        let (refusal, layout) = match r {
            Ok(l) => (0, l.layout),
            Err(q) => (
                u32::from(q),
                Layout {
                    l1: 0,
                    l2: 0,
                    nc: 0,
                    r: 0,
                },
            ),
        };
        let Layout { l1, l2, nc, r } = layout;
        LayoutAnswer {
            refusal,
            l1,
            l2,
            nc,
            r,
        }
    }
}

#[unsafe(no_mangle)]
pub extern "C" fn dh_write(
    l1: usize,
    l2: usize,
    nc: usize,
    r: usize,
    row: &[u8],
    out: &mut [u8],
) -> Answer
    ensures { (answer_in result ≡ write_answer (layout l1 l2 nc r) row.now (length out.old))
        × (out.new ≡ write_target (layout l1 l2 nc r) row.now out.old) }
{
    Answer::from(message::writing::write(Layout { l1, l2, nc, r }, row, out))
}

#[unsafe(no_mangle)]
pub extern "C" fn dh_read(msg: &[u8], out: &mut [u16]) -> LayoutAnswer
    ensures { (layout_in result
        ≡ layout_answer (read_refusal msg.now (length out.old)) msg.now)
        × (out.new ≡ read_target msg.now out.old) }
{
    LayoutAnswer::from(message::reading::read(msg, out))
}

#[unsafe(no_mangle)]
pub extern "C" fn dh_mend(w: usize, sum: usize, bits: &[u8], out: &mut [u8]) -> Answer
    ensures { (answer_in result
        ≡ record { refusal = mend_refusal w sum bits.now (length out.old); value = 0 })
        × (out.new ≡ mend_target w sum bits.now out.old) }
{
    Answer::from(vt::mend(w, sum, bits, out))
}

// The answer and every byte of the slice are a function of the message, the row, the bit count and the slice, and of nothing
// else: what came out in March comes out of the archive in December.
#[unsafe(no_mangle)]
pub extern "C" fn dh_list(msg: &[u8], row: &[u8], m: usize, out: &mut [u8]) -> Answer
    ensures { (list_in result ≡ list_answer msg.now row.now m (length out.old))
        × (out.new ≡ list_slice msg.now row.now m out.old) }
{
    Answer::from(lister::list(msg, row, m, out))
}
