// The answers of the calls as one number each, for programs in C. By functions and not by `From`: five of them are of a `Result`, which has no
// impl of ours, and the other three serve these.
#![tactic(auto)]

ghost use Rattle.std.specs.Prelude.{◌≡◌, ◌+◌, Some};
ghost use Rattle.tables.specs.Reply.{refusal_number, given, replied, replied_as, kinds_of, fault_in, listing_of};
ghost use Rattle.packing.specs.Packed.{packed_opened, packed_edited, packed_pair, packed_fault, packed_listing};

use inheritance::Kind;
use tables::{Fault, Listing, Refusal};

// A refusal as a number.
fn pack_refusal(why: Refusal) -> u32
    ensures { result ≡ 65536 + refusal_number why }
{
    65536 + u32::from(u8::from(why))
}

/// What open or save answers as a number.
pub fn pack_done(reply: Result<(), Refusal>) -> u32
    ensures { result ≡ packed_opened (replied reply) }
{
    match reply {
        Ok(()) => 0,
        Err(why) => pack_refusal(why),
    }
}

/// What an edit, a return or a refresh answers as a number.
pub fn pack_edited(reply: Result<u16, Refusal>) -> u32
    ensures { result ≡ packed_edited (replied reply) }
{
    match reply {
        Ok(count) => u32::from(count),
        Err(why) => pack_refusal(why),
    }
}

/// What parties answers as a number.
pub fn pack_pair(reply: Result<(Kind, Kind), Refusal>) -> u32
    ensures { result ≡ packed_pair (replied_as kinds_of reply) }
{
    match reply {
        Ok((one, other)) => 256 * u32::from(one.0) + u32::from(other.0),
        Err(why) => pack_refusal(why),
    }
}

// A fault as a number: which of the four it is, in the upper half, and where.
fn pack_fault(fault: Fault) -> u32
    ensures { result ≡ packed_fault (given (fault_in (Some fault))) }
{
    match fault {
        Fault::LinkByte(place) => 131072 + u32::from(place),
        Fault::AboveItself(kind) => 196608 + u32::from(kind.0),
        Fault::WrongEntry(place) => 262144 + u32::from(place),
        Fault::WrongCount(mark) => 327680 + u32::from(mark.0),
    }
}

/// What inspect answers as a number.
pub fn pack_inspected(reply: Result<Option<Fault>, Refusal>) -> u32
    ensures { result ≡ packed_fault (replied_as fault_in reply) }
{
    match reply {
        Ok(None) => 0,
        Ok(Some(fault)) => pack_fault(fault),
        Err(why) => pack_refusal(why),
    }
}

// What a list of edits gives as a number of 64 bits.
fn pack_counts(listing: Listing) -> u64
    ensures { result ≡ packed_listing (given (listing_of listing)) }
{
    let accepted = u64::from(listing.accepted);
    let changed = u64::from(listing.changed);
    match listing.stopped {
        None => 4294967296 * changed + accepted,
        Some(why) => {
            let stop = 256 + u64::from(u8::from(why));
            4294967296 * changed + 65536 * stop + accepted
        }
    }
}

/// What a list of edits answers as a number of 64 bits.
pub fn pack_listing(reply: Result<Listing, Refusal>) -> u64
    ensures { result ≡ packed_listing (replied_as listing_of reply) }
{
    match reply {
        Ok(listing) => pack_counts(listing),
        Err(why) => u64::from(pack_refusal(why)),
    }
}
