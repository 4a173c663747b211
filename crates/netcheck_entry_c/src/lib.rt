// For C: a book is run in lent tables. It asks nothing of a caller but what the types say: each pointer leads to as many words or bytes as its
// length, and no two of the slices overlap. include/netcheck.h is its header.
#![tactic(auto)]

ghost use Rattle.netcheck_entry.specs.Outcome.{Entered, slices};

use netcheck_entry::Outcome;

#[unsafe(no_mangle)]
pub extern "C" fn netcheck_run(
    book: &[u8],
    sp: &mut [u32],
    spp: &mut [u32],
    states: &mut [u32],
    members: &mut [u32],
    transitions: &mut [u32],
    pending: &mut [u32],
    scratch: &mut [u32],
    output: &mut [u8],
) -> Outcome
    ensures { Entered book.now
        (slices sp.old spp.old states.old members.old transitions.old pending.old scratch.old output.old)
        result
        (slices sp.new spp.new states.new members.new transitions.new pending.new scratch.new output.new) }
{
    netcheck_entry::netcheck_run(
        book,
        sp,
        spp,
        states,
        members,
        transitions,
        pending,
        scratch,
        output,
    )
}
