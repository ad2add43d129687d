// The tally: how many edits of each caller were accepted.
ghost use Rattle.std.specs.Prelude.{◌≡◌, ◌<◌, length};
ghost use Rattle.tables.specs.Tables.{tallied};

use tables::Caller;

/// One more accepted edit of a caller. The largest number stays.
pub fn count_edit(tally: &mut [u32], caller: Caller)
    requires { caller.0 < length tally.old }
    ensures { tally.new ≡ tallied caller.0 tally.old }
{
    let place = usize::from(caller.0);
    let edits = tally[place];
    if edits < 4294967295 {
        tally[place] = edits + 1;
    }
}
