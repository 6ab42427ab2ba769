// The reads of all levels of a side, of a valid book whose state is words: those that `host` exports.
#![tactic(auto)]

ghost use Rattle.std.specs.Prelude.{◌≡◌};
ghost use Rattle.host_level_stops.specs.Stops.{level_called};
ghost use Rattle.host_levels.specs.Levels.{profile_call, l2_call};

use host_level_stops::level_read;

pub fn priority_profile(
    state: &[u64],
    rows: &[u64],
    scratch: &mut [u64],
    side: u64,
    out: &mut [u64],
    count: &mut [u64],
) -> u64
    ensures { level_called result scratch.new out.new count.new ≡ profile_call state.now rows.now scratch.old side out.old count.old }
{
    level_read(
        state,
        rows,
        scratch,
        side,
        out,
        count,
        reconstructor_reads_levels::priority_profile,
    )
}

pub fn l2(
    state: &[u64],
    rows: &[u64],
    scratch: &mut [u64],
    side: u64,
    out: &mut [u64],
    count: &mut [u64],
) -> u64
    ensures { level_called result scratch.new out.new count.new ≡ l2_call state.now rows.now scratch.old side out.old count.old }
{
    level_read(
        state,
        rows,
        scratch,
        side,
        out,
        count,
        reconstructor_reads_levels::l2,
    )
}
