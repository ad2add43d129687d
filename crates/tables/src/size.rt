// How many kinds and marks a book has, and a range of its marks. That their numbers fit 16 bits is known of a size, so they are cast.
ghost use Rattle.std.specs.Prelude.{◌≡◌, ◌+◌, ◌*◌, ◌≤◌};

use crate::{link_place, place};
use inheritance::{Kind, Mark};

/// How many kinds and marks a book has, which is not more than the most.
// That tables have the lengths of such a book (`Sized`) stays a clause: they are the caller's slices, and C lends them one by one.
#[derive(Clone, Copy, Debug, PartialEq, Eq)]
pub struct Size {
    pub n: usize,
    pub m: usize,
    ghost kinds: { n ≤ 128 },
    ghost marks: { m ≤ 64 },
}

impl Size {
    /// Where rules and entries hold what they say of a kind and a mark.
    pub fn place(self, kind: Kind, mark: Mark) -> usize
        ensures { result ≡ kind.0 * self.m + mark.0 }
    {
        place(kind, mark, self.m as u16)
    }

    /// Where links hold what they say of a child and a parent.
    pub fn link_place(self, child: Kind, parent: Kind) -> usize
        ensures { result ≡ child.0 * self.n + parent.0 }
    {
        link_place(child, parent, self.n as u16)
    }
}

/// The marks from lo to below hi of a book.
#[derive(Clone, Copy, Debug, PartialEq, Eq)]
pub struct Marks {
    pub size: Size,
    pub lo: usize,
    pub hi: usize,
    ghost low: { lo ≤ hi },
    ghost high: { hi ≤ size.m },
}
