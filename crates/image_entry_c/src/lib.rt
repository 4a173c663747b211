// For C: images of a book's tables. As in netcheck_entry_c, nothing is asked of a caller but what the types say: each pointer leads to as many words or
// bytes as its length, and no two of the slices overlap. include/netcheck.h is its header.
#![tactic(auto)]

ghost use Rattle.image_entry.specs.Outcome.{slices, SavedBy, Resumed, ResumeSavedBy};

use image_entry::{Outcome, SavedOutcome};

// ---- a book is run, and the image of its last place written

#[unsafe(no_mangle)]
pub extern "C" fn netcheck_save(
    book: &[u8],
    image: &mut [u8],
    sp: &mut [u32],
    spp: &mut [u32],
    states: &mut [u32],
    members: &mut [u32],
    transitions: &mut [u32],
    pending: &mut [u32],
    scratch: &mut [u32],
    output: &mut [u8],
) -> SavedOutcome
    ensures { SavedBy book.now
        (slices sp.old spp.old states.old members.old
        transitions.old pending.old scratch.old output.old)
        image.old result
        (slices sp.new spp.new states.new members.new
        transitions.new pending.new scratch.new output.new)
        image.new }
{
    image_entry::netcheck_save(
        book,
        image,
        sp,
        spp,
        states,
        members,
        transitions,
        pending,
        scratch,
        output,
    )
}

// ---- an image is read, and a book goes on from it

#[unsafe(no_mangle)]
pub extern "C" fn netcheck_resume(
    image: &[u8],
    book: &[u8],
    sp: &mut [u32],
    spp: &mut [u32],
    states: &mut [u32],
    members: &mut [u32],
    transitions: &mut [u32],
    pending: &mut [u32],
    scratch: &mut [u32],
    output: &mut [u8],
) -> Outcome
    ensures { Resumed image.now book.now
        (slices sp.old spp.old states.old members.old
        transitions.old pending.old scratch.old output.old)
        result
        (slices sp.new spp.new states.new members.new
        transitions.new pending.new scratch.new output.new) }
{
    image_entry::netcheck_resume(
        image,
        book,
        sp,
        spp,
        states,
        members,
        transitions,
        pending,
        scratch,
        output,
    )
}

// ---- .. and the next image is written

#[unsafe(no_mangle)]
pub extern "C" fn netcheck_resume_save(
    image: &[u8],
    book: &[u8],
    next: &mut [u8],
    sp: &mut [u32],
    spp: &mut [u32],
    states: &mut [u32],
    members: &mut [u32],
    transitions: &mut [u32],
    pending: &mut [u32],
    scratch: &mut [u32],
    output: &mut [u8],
) -> SavedOutcome
    ensures { ResumeSavedBy image.now book.now
        (slices sp.old spp.old states.old members.old
        transitions.old pending.old scratch.old output.old)
        next.old result
        (slices sp.new spp.new states.new members.new
        transitions.new pending.new scratch.new output.new)
        next.new }
{
    image_entry::netcheck_resume_save(
        image,
        book,
        next,
        sp,
        spp,
        states,
        members,
        transitions,
        pending,
        scratch,
        output,
    )
}
