// The refusals of document 01's table. Which inputs get which one is said by each operation's own definition; here stand
// only their names and their numbers. Contracts cite specs/Refusal.antt.
#![tactic(auto)]

ghost use Rattle.std.specs.Prelude.{◌≡◌};

// Each with the number that stands for it in the column "Returned".
#[derive(Clone, Copy)]
pub enum Refusal {
    // a message under nine bytes, or another mark
    NoMessage = 1,
    // version not 1
    Version = 2,
    // a layout that is not legal, or a length outside 1 to 2,040
    Layout = 3,
    // a message of another length than its layout gives
    MessageLength = 4,
    // a sum above the length of its string
    Sum = 5,
    // a spare bit of the message is 1
    SpareBit = 6,
    // more bits received than sent, or more than 12 lost
    Losses = 7,
    // a row or string of another byte count than its bits need, or with a spare bit 1
    Packing = 8,
    // more consistent rows than fit in the list slice
    ListFull = 9,
    // a target slice shorter than what is to be written
    ShortTarget = 10,
}

impl From<Refusal> for u32 {
    ghost use Rattle.refusal.specs.Refusal.{number_of};

    ghost from_gives = { λ q n. n ≡ number_of q };

    fn from(q: Refusal) -> u32 {
        q as u32
    }
}
