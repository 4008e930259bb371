// Which layouts are legal, and how long their messages are.
ghost use Rattle.std.specs.Prelude.{◌≡◌, true, ◌-◌, ◌*◌, ◌^◌, ◌≤◌, leb};
ghost use Rattle.bits.specs.Bits.{longest_line};
ghost use Rattle.message.specs.Layout.{legal};
ghost use Rattle.message.specs.Message.{width as width_of, fields_length, message_bytes};

use crate::Layout;
use bits::MOST_IN_LINE;
use refusal::Refusal;

// A layout that is legal.
#[derive(Clone, Copy)]
pub struct Legal {
    pub layout: Layout,
    ghost is_legal: { legal layout ≡ true },
}

impl Layout {
    // Whether there are few enough chunks for the field.
    fn has_few_chunks(self) -> bool
        requires { (1 ≤ self.l1) × ((1 ≤ self.l2) × (self.nc ≤ 8)) }
        ensures { result ≡ leb (self.l1 * self.l2) (2 ^ self.nc - 1) }
    {
        self.l1 <= MOST_IN_LINE
            && self.l2 <= MOST_IN_LINE
            && self.l1 * self.l2 < bits::power(self.nc)
    }

    // Whether a layout is legal. Its numbers may be any.
    #[tactic(auto, unfolding(crate::specs::Layout::legal))]
    pub fn is_legal(self) -> bool
        ensures { result ≡ legal self }
    {
        let Layout { l1, l2, nc, r } = self;
        if l1 < 1 || l2 < 1 || nc < 3 || 8 < nc || 16 < r {
            return false;
        }
        self.has_few_chunks()
    }
}

// A layout is legal or refused.
impl TryFrom<Layout> for Legal {
    ghost use Rattle.message.specs.Legal.{Admits};

    type Error = Refusal;

    ghost try_from_gives = { Admits };

    fn try_from(layout: Layout) -> Result<Self, Refusal> {
        if !layout.is_legal() {
            return Err(Refusal::Layout);
        }
        Ok(Legal { layout })
    }
}

// As many bits as w needs in binary.
pub fn width(w: usize) -> usize
    requires { w ≤ longest_line }
    ensures { result ≡ width_of w }
{
    let mut k = 0;
    let mut v = w;
    while 0 < v {
        v /= 2;
        k += 1;
    }
    k
}

impl Legal {
    // The bits of the fields of a message.
    pub fn fields_length(self) -> usize
        ensures { result ≡ fields_length self.layout }
    {
        let Layout { l1, l2, nc, r } = self.layout;
        let block = width(l2 * nc);
        let string = width(nc * l1);
        l1 * block + l2 * string + r * nc
    }

    // The length of a message in bytes.
    #[tactic(auto, unfolding(crate::specs::Message::message_bytes))]
    pub fn message_bytes(self) -> usize
        ensures { result ≡ message_bytes self.layout }
    {
        9 + self.fields_length().div_ceil(8)
    }
}
