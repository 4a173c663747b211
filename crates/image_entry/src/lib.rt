// Images of a book's tables, and what a call came to as C gets it. image_entry_c exports them.
#![tactic(auto)]

ghost use Rattle.std.specs.Prelude.{◌≡◌, ◌≤◌};
ghost use Rattle.image_keep.specs.Clauses.{text_line_of};
ghost use Rattle.image_entry.specs.Outcome.{slices, saved_outcome_of, SavedBy, Resumed, ResumeSavedBy};

use book_finish::Stop;
pub use netcheck_entry::Outcome;

// as Outcome, and how many bytes of the image are written
#[repr(C)]
#[derive(Clone, Copy)]
pub struct SavedOutcome {
    pub number: u32,
    pub line: u32,
    pub length: usize,
    pub image: usize,
}

fn saved_outcome_of(saved: Result<(usize, usize), Stop>) -> SavedOutcome
    requires { text_line_of saved ≤ 2050 }
    ensures { result ≡ saved_outcome_of saved }
{
    match saved {
        Ok((length, image)) => SavedOutcome {
            number: 0,
            line: 0,
            length,
            image,
        },
        Err(stop) => SavedOutcome {
            number: stop.refusal.number(),
            line: stop.line as u32,
            length: stop.length,
            image: 0,
        },
    }
}

// ---- a book is run, and the image of its last place written

pub fn netcheck_save(
    book: &[u8],
    image: &mut [u8],
    sp: &mut [u32],
    spp: &mut [u32],
    states: &mut [u32],
    members: &mut [u32],
    transitions: &mut [u32],
    pending: &mut [u32],
    scratch: &mut [u32],
    output: &mut [u8],
) -> SavedOutcome
    ensures { SavedBy book.now
        (slices sp.old spp.old states.old members.old
        transitions.old pending.old scratch.old output.old)
        image.old result
        (slices sp.new spp.new states.new members.new
        transitions.new pending.new scratch.new output.new)
        image.new }
{
    let saved = image_calls::save(
        book,
        image,
        sp,
        spp,
        states,
        members,
        transitions,
        pending,
        scratch,
        output,
    );
    saved_outcome_of(saved)
}

// ---- an image is read, and a book goes on from it

pub fn netcheck_resume(
    image: &[u8],
    book: &[u8],
    sp: &mut [u32],
    spp: &mut [u32],
    states: &mut [u32],
    members: &mut [u32],
    transitions: &mut [u32],
    pending: &mut [u32],
    scratch: &mut [u32],
    output: &mut [u8],
) -> Outcome
    ensures { Resumed image.now book.now
        (slices sp.old spp.old states.old members.old
        transitions.old pending.old scratch.old output.old)
        result
        (slices sp.new spp.new states.new members.new
        transitions.new pending.new scratch.new output.new) }
{
    let ran = image_calls::resume(
        image,
        book,
        sp,
        spp,
        states,
        members,
        transitions,
        pending,
        scratch,
        output,
    );
    netcheck_entry::outcome_of(ran)
}

// ---- .. and the next image is written

pub fn netcheck_resume_save(
    image: &[u8],
    book: &[u8],
    next: &mut [u8],
    sp: &mut [u32],
    spp: &mut [u32],
    states: &mut [u32],
    members: &mut [u32],
    transitions: &mut [u32],
    pending: &mut [u32],
    scratch: &mut [u32],
    output: &mut [u8],
) -> SavedOutcome
    ensures { ResumeSavedBy image.now book.now
        (slices sp.old spp.old states.old members.old
        transitions.old pending.old scratch.old output.old)
        next.old result
        (slices sp.new spp.new states.new members.new
        transitions.new pending.new scratch.new output.new)
        next.new }
{
    let saved = image_calls::resume_save(
        image,
        book,
        next,
        sp,
        spp,
        states,
        members,
        transitions,
        pending,
        scratch,
        output,
    );
    saved_outcome_of(saved)
}
