// The store of a book, which holds states with a name: the names, refusals 14 and 15, and the store as calls are lent it, with the lengths of
// its tables.
#![tactic(auto)]

ghost use Rattle.std.specs.Prelude.{◌≡◌, length};
ghost use Rattle.stores.specs.Name.{names, name_below, asked_state};
ghost use Rattle.stores.specs.Lent.{store_of, store_read};
ghost use Rattle.stores.specs.Store.{stored};

use tables::Refusal;

/// The name of a saved state.
#[derive(Clone, Copy, Debug, PartialEq, Eq, PartialOrd, Ord, Hash)]
pub struct Name(pub u16);

impl Name {
    /// The most names that a store has.
    pub const MOST: u16 = 8;

    /// The name with this number, if there is one.
    // One constructor for all such types would give a number that may be any of them.
    pub fn new(number: u16) -> Option<Name>
        ensures { result ≡ name_below number }
    {
        (number < Name::MOST).then_some(Name(number))
    }
}

/// How many copies a table of the store has: one for each name.
// A cast, since `from` is called and is no constant.
pub const COPIES: usize = Name::MOST as usize;

/// The name of the state that a return is put to, after refusals 14 and 15, in this order. A flag that is not 0, whatever it is, says
/// that a state was saved.
pub fn ask_state(flags: &[u8], name: Name) -> Result<Name, Refusal>
    requires { length flags.now ≡ names }
    ensures { result ≡ asked_state flags.now (name_below name.0) }
{
    let known = Name::new(name.0).ok_or(Refusal::Name)?;
    let flag = flags[usize::from(known.0)];
    if flag == 0 {
        return Err(Refusal::Unsaved);
    }
    Ok(known)
}

/// The store of a book as a return reads it: a flag for each name, and the copies of links, rules, entries and dispute counts. It holds
/// tables of any length.
#[derive(Clone, Copy)]
pub struct Store<'a> {
    pub flags: &'a [u8],
    pub links: &'a [u8],
    pub rules: &'a [u16],
    pub entries: &'a [u16],
    pub disputes: &'a [u16],
}

/// The store as a save writes it.
#[derive(Drop)]
pub struct StoreMut<'a> {
    pub flags: &'a mut [u8],
    pub links: &'a mut [u8],
    pub rules: &'a mut [u16],
    pub entries: &'a mut [u16],
    pub disputes: &'a mut [u16],
}

impl Store<'_> {
    /// Whether the tables have exactly the lengths of a store for a book of n kinds and m marks: else refusal 1.
    pub fn is_shaped(&self, n: u16, m: u16) -> bool
        ensures { result ≡ stored n m (store_read self.now) }
    {
        let kinds = usize::from(n);
        let marks = usize::from(m);
        let places = kinds * marks;
        (self.flags.len() == COPIES)
            & (self.links.len() == COPIES * (kinds * kinds))
            & (self.rules.len() == COPIES * places)
            & (self.entries.len() == COPIES * places)
            & (self.disputes.len() == COPIES * marks)
    }
}

impl StoreMut<'_> {
    /// Its tables, to read.
    pub fn read<'s>(&'s self) -> Store<'s>
        ensures { store_read result ≡ store_of self.now }
    {
        Store {
            flags: self.flags,
            links: self.links,
            rules: self.rules,
            entries: self.entries,
            disputes: self.disputes,
        }
    }
}
