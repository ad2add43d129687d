// Kinds, marks and lookups: the words in which inheritance is told, and the 16-bit entry of a lookup.
#![tactic(auto)]

ghost use Rattle.std.specs.Prelude.{◌≡◌, ◌<◌};
ghost use Rattle.inheritance.specs.Checked.{kind_below, mark_below};
ghost use Rattle.inheritance.specs.Entry.{entry_of, Decodes};

/// A kind of fruit, by its number: the class index of the dispatch-table paper.
#[derive(Clone, Copy, Debug, PartialEq, Eq, PartialOrd, Ord, Hash)]
pub struct Kind(pub u16);

/// A mark on a fruit, by its number: the selector index of the dispatch-table paper.
#[derive(Clone, Copy, Debug, PartialEq, Eq, PartialOrd, Ord, Hash)]
pub struct Mark(pub u16);

/// What a kind sees for a mark: nothing, the rule of a kind, or a dispute at a kind.
#[derive(Clone, Copy, Debug, PartialEq, Eq)]
pub enum Lookup {
    None,
    Rule(Kind),
    Dispute(Kind),
}

impl Kind {
    /// The most kinds that a book has.
    pub const MOST: u16 = 128;

    /// The kind with this number in a book of n kinds, if it has one.
    pub fn new(number: u16, n: u16) -> Option<Kind>
        ensures { result ≡ kind_below n number }
    {
        (number < n).then_some(Kind(number))
    }
}

impl Mark {
    /// The most marks that a book has.
    pub const MOST: u16 = 64;

    /// The mark with this number in a book of m marks, if it has one.
    // Each such type has a constructor of its own: one for all of them would give a number that may be any of them.
    pub fn new(number: u16, m: u16) -> Option<Mark>
        ensures { result ≡ mark_below m number }
    {
        (number < m).then_some(Mark(number))
    }
}

impl From<u16> for Lookup {
    ghost from_gives = { Decodes };

    /// The lookup that an entry stands for. The tests stand in this order for speed: what is matched on the lookup of many entries
    /// is then worked out for several at once.
    fn from(entry: u16) -> Lookup {
        if entry > 256 {
            Lookup::Dispute(Kind(entry - 257))
        } else if entry > 0 {
            Lookup::Rule(Kind(entry - 1))
        } else {
            Lookup::None
        }
    }
}

impl Lookup {
    /// Its entry. That of a kind of a book has 16 bits.
    pub fn entry(self) -> u16
        requires { entry_of self < 65536 }
        ensures { result ≡ entry_of self }
    {
        match self {
            Lookup::None => 0,
            Lookup::Rule(k) => k.0 + 1,
            Lookup::Dispute(k) => 257 + k.0,
        }
    }
}
