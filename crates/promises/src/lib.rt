// What is promised of the lookup, of a book and of the text program, a function for each promise: the contract says it, and the body does nothing.
#![tactic(auto)]

ghost use Rattle.promises.specs.Books.{BooksAgree, StaysSound, StaysCounted, TallyCounts, Never5, Never10, ReturnNever5};
ghost use Rattle.promises.specs.Books.{StateIsLastSaved, ReturnBringsBack};
ghost use Rattle.promises.specs.Calls.{AddRuleEdits, TakeRuleEdits, AddLinkEdits, TakeLinkEdits, RefreshRenews};
ghost use Rattle.promises.specs.Calls.{FindSound, FindNever10, LaneSound, ListWhole, ListStopped, InspectSound, PartiesDispute};
ghost use Rattle.promises.specs.Lookups.{ChainIsAbove, SeenAndLeft, OwnRuleWins, LookupMeansLeft, DisputeIsAt, SameKindsLeft};
ghost use Rattle.promises.specs.Lookups.{LookupIsUnique, EntryIsItsLookup};
ghost use Rattle.promises.specs.Text.{StreamIsSession, StreamingIsSession, Never5Printed, Never10Printed, Never13Printed, ProgramAlone};
ghost use Rattle.promises.specs.Text.{FormsAreRead, OnlyFormsAreRead, AnswerShort, CasesHold};

// ---- The lookup

/// Kind P is above C, and C below P, if a chain of one or more links leads from C up to P: this is what the test of the definitions says.
pub fn chain_is_above()
    ensures { ChainIsAbove }
{}

/// What passes the tests of the definitions is what is seen from a kind, and what is left there.
pub fn seen_and_left()
    ensures { SeenAndLeft }
{}

/// Where no kind is above itself, an own rule wins at its own kind.
pub fn own_rule_wins()
    ensures { OwnRuleWins }
{}

/// The lookup is none exactly if no kind is left, the rule of O exactly if only O is left, and a dispute exactly if two or more are left.
pub fn lookup_means_left()
    ensures { LookupMeansLeft }
{}

/// Where no kind is above itself, a dispute is at X if every direct parent whose lookup is not none has the dispute at X, and otherwise at the kind
/// itself.
pub fn dispute_is_at()
    ensures { DisputeIsAt }
{}

/// Where no kind is above itself, a kind disputed at X has the same kinds left as X.
pub fn same_kinds_left()
    ensures { SameKindsLeft }
{}

/// Where no kind is above itself, the lookup solves the equation by which it follows from those of the direct parents and the kinds left, and nothing
/// else does.
pub fn lookup_is_unique()
    ensures { LookupIsUnique }
{}

/// Every number is the entry of one lookup, with rule kinds below 256; no two have the same.
pub fn entry_is_its_lookup()
    ensures { EntryIsItsLookup }
{}

// ---- Two books, any calls

/// Take two lists of calls, each on a book of its own just opened with the same n and m: if afterwards every place of links and every place of rules
/// holds the same number in both books, so does every place of entries and every place of the dispute counts.
pub fn books_agree()
    ensures { BooksAgree }
{}

/// After any list of calls on a book just opened, the book is sound.
pub fn stays_sound()
    ensures { StaysSound }
{}

/// After any list of calls on a book just opened, the dispute count of each mark is the number of kinds that have a dispute entry for it.
pub fn stays_counted()
    ensures { StaysCounted }
{}

/// After any list of calls on a book just opened, each caller's number in its tally is the smaller of 4,294,967,295 and the number of that caller's
/// edits accepted since the last accepted open, those that lists made included, and accepted returns.
pub fn tally_counts()
    ensures { TallyCounts }
{}

/// After any list of calls on a book just opened, none of the ten calls that the store is not lent to is refused by 5.
pub fn never_refused_unsound()
    ensures { Never5 }
{}

/// After any list of calls on a book just opened, none of the ten calls that the store is not lent to is refused by 10.
pub fn never_refused_damaged()
    ensures { Never10 }
{}

/// Where the flags of the store were 0 when the book was opened, no return is refused by 5.
pub fn return_never_refused_unsound()
    ensures { ReturnNever5 }
{}

/// After any list of calls the state with a name is the book as the last accepted save under that name found it, or, where the list has none, what the
/// store held under the name at its start.
pub fn state_is_last_saved()
    ensures { StateIsLastSaved }
{}

/// A list of calls with an accepted return in it ends with the links, rules, entries and dispute counts, and the store, of another: that which begins
/// with the saved state, and with the store as that return found it, and has the calls after that return.
pub fn return_brings_back()
    ensures { ReturnBringsBack }
{}

// ---- The calls

/// An accepted add rule stores the handling as the kind's own rule for the mark, and brings every entry to its lookup and every dispute count to that of
/// its mark. Entries differ only where the edit can touch, its count is exact, and of the tally only its caller's number moves.
pub fn add_rule_edits()
    ensures { AddRuleEdits }
{}

/// An accepted take rule removes the kind's own rule for the mark, with all that add rule promises.
pub fn take_rule_edits()
    ensures { TakeRuleEdits }
{}

/// After an accepted add link the child sits directly under the parent, and every entry is its lookup and every dispute count that of its mark. Entries
/// differ only where the edit can touch, its count is exact, and of the tally only its caller's number moves.
pub fn add_link_edits()
    ensures { AddLinkEdits }
{}

/// After an accepted take link the child no longer sits directly under the parent, with all that add link promises.
pub fn take_link_edits()
    ensures { TakeLinkEdits }
{}

/// An accepted refresh leaves links, rules and tally, and sound tables, and its count is the number of places whose entry differs.
pub fn refresh_renews()
    ensures { RefreshRenews }
{}

/// On sound tables find answers the lookup: none; a rule, with its kind and its handling number; or a dispute, with its kind.
pub fn find_sound()
    ensures { FindSound }
{}

/// On sound tables find is not refused by 10, of whatever kind and mark it is asked.
pub fn find_never_damaged()
    ensures { FindNever10 }
{}

/// On sound tables that are spelled in bytes a lane's find gives that same lookup, packed into one number.
pub fn lane_sound()
    ensures { LaneSound }
{}

/// A list that is accepted whole has made the edit of each record, in order, and each obeys the promises of its edit; how many there are, and the sum of
/// their counts, are what the list answers.
pub fn list_whole()
    ensures { ListWhole }
{}

/// A list that stopped has so made those before the record at which it stopped, and no other; that record's edit, on the tables that the list leaves, is
/// refused by the number that it answers.
pub fn list_stopped()
    ensures { ListStopped }
{}

/// Inspect answers sound exactly if the tables are sound.
pub fn inspect_sound()
    ensures { InspectSound }
{}

/// On sound tables, where the lookup is a dispute, parties answers the lowest of the kinds left there, then the second lowest.
pub fn parties_dispute()
    ensures { PartiesDispute }
{}

// ---- The text program

/// However an input is cut into blocks, the outputs of the blocks joined, and the close, are the session of the input: so by the definitions, and by the
/// contracts of the functions that work a block.
pub fn stream_is_session()
    ensures blocks { StreamIsSession }
    ensures functions { StreamingIsSession }
{}

/// The text program never prints `(refused 5)`.
pub fn never_prints_unsound()
    ensures { Never5Printed }
{}

/// The text program never prints `(refused 10)`.
pub fn never_prints_damaged()
    ensures { Never10Printed }
{}

/// The text program, as one of the callers, never prints `(refused 13)`.
pub fn never_prints_caller()
    ensures { Never13Printed }
{}

/// The text program is one caller: after any lines the number of every other is 0.
pub fn program_alone()
    ensures { ProgramAlone }
{}

/// A line has a form exactly if it is a shape filled with numbers up to 65,535.
pub fn forms_are_read()
    ensures filled { FormsAreRead }
    ensures others { OnlyFormsAreRead }
{}

/// An answer has at most 16 bytes, and 17 with its line feed.
pub fn answer_short()
    ensures { AnswerShort }
{}

/// The worked session, thirteen cases: the program prints, line by line, these answers.
pub fn cases_hold()
    ensures { CasesHold }
{}
