// Images of a book's tables: a book is run and its image written; an image is read, and a book goes on from it.
#![tactic(auto)]

ghost use Rattle.std.specs.Prelude.{option_copied};
ghost use Rattle.book_memory.specs.Place.{SameMemory, SameSlices};
ghost use Rattle.book_finish.specs.Clauses as End;
ghost use Rattle.book_run.specs.Clauses as Run;
ghost use Rattle.book_run.specs.Clauses.{slices, lent_of};
ghost use Rattle.image_keep.specs.Clauses.{number_of, text_line_of, length_of, image_length_of};
ghost use Rattle.image_calls.specs.Clauses as Its;
ghost use Rattle.image_calls.specs.Entries.{SaveEntry, ResumeEntry, ResumeSaveEntry};

use book_finish::Stop;
use book_memory::{LINES, Memory, Place, Setting};

// ---- going on

// from an image: its place, then the book's lines
fn go_on_from(image: &[u8], book: &[u8], place: &mut Place) -> Result<Setting, Stop>
    requires { Run.PreOpen place.old }
    ensures keeps { SameSlices place.old place.new }
    ensures gives { Its.PostOn image.now book.now place.old result place.new }
{
    book_run::enough(place)?;
    let setting = image_read::read(image, place).map_err(|refusal| Stop {
        refusal,
        line: 0,
        length: 0,
    })?;
    let left = book_run::INSTRUCTIONS - place.lines.count;
    book_run::go_on(book, place, setting, 1, left)?;
    Ok(setting)
}

// from an image if there is one, else a whole book
fn run_from(from: Option<&[u8]>, book: &[u8], place: &mut Place) -> Result<Setting, Stop>
    requires { Run.PreOpen place.old }
    ensures keeps { SameSlices place.old place.new }
    ensures gives { Its.PostFrom (option_copied from.entry) book.now place.old result place.new }
{
    match from {
        None => book_run::open(book, place),
        Some(image) => go_on_from(image, book, place),
    }
}

// ---- the calls over what is lent, scratch in two

// .. and its last place is kept as an image
fn save_in(
    memory: &mut Memory,
    from: Option<&[u8]>,
    book: &[u8],
    image: &mut [u8],
) -> Result<(usize, usize), Stop>
    requires { Run.Table memory.old }
    ensures keeps { SameMemory memory.old memory.new }
    ensures gives { Its.SavesIn (option_copied from.entry) book.now memory.old image.old result
        memory.new image.new }
{
    let mut place = memory.place();
    book_begin::clear(&mut place);
    let went = run_from(from, book, &mut place);
    let sealed = image_keep::seal(image, &mut place, went);
    memory.put_back(place);
    sealed
}

fn resume_in(memory: &mut Memory, image: &[u8], book: &[u8]) -> Result<usize, Stop>
    requires { Run.Table memory.old }
    ensures keeps { SameMemory memory.old memory.new }
    ensures gives { Its.ResumesIn image.now book.now memory.old result memory.new }
{
    let mut place = memory.place();
    book_begin::clear(&mut place);
    let went = go_on_from(image, book, &mut place);
    let ran = book_finish::finish(&mut place, went);
    memory.put_back(place);
    ran
}

// ---- the calls

// A book is run, and the image of its last place written.
pub fn save(
    book: &[u8],
    image: &mut [u8],
    sp: &mut [u32],
    spp: &mut [u32],
    states: &mut [u32],
    members: &mut [u32],
    transitions: &mut [u32],
    pending: &mut [u32],
    scratch: &mut [u32],
    output: &mut [u8],
) -> Result<(usize, usize), Stop>
    ensures { SaveEntry
        (lent_of
        (slices sp.old spp.old states.old members.old
        transitions.old pending.old scratch.old output.old))
        book.now
        (slices sp.old spp.old states.old members.old
        transitions.old pending.old scratch.old output.old)
        image.old (number_of result) (text_line_of result) (length_of result) (image_length_of result)
        (slices sp.new spp.new states.new members.new
        transitions.new pending.new scratch.new output.new)
        image.new }
{
    let at = LINES.min(scratch.len());
    let (lines, scratch) = scratch.split_at_mut(at);
    let mut memory = Memory {
        sp,
        spp,
        states,
        members,
        transitions,
        pending,
        lines,
        scratch,
        output,
    };
    save_in(&mut memory, None, book, image)
}

// An image is read, and a book goes on from it.
pub fn resume(
    image: &[u8],
    book: &[u8],
    sp: &mut [u32],
    spp: &mut [u32],
    states: &mut [u32],
    members: &mut [u32],
    transitions: &mut [u32],
    pending: &mut [u32],
    scratch: &mut [u32],
    output: &mut [u8],
) -> Result<usize, Stop>
    ensures { ResumeEntry
        (lent_of
        (slices sp.old spp.old states.old members.old
        transitions.old pending.old scratch.old output.old))
        image.now book.now
        (slices sp.old spp.old states.old members.old
        transitions.old pending.old scratch.old output.old)
        (End.number_of result) (End.text_line_of result) (End.length_of result)
        (slices sp.new spp.new states.new members.new
        transitions.new pending.new scratch.new output.new) }
{
    let at = LINES.min(scratch.len());
    let (lines, scratch) = scratch.split_at_mut(at);
    let mut memory = Memory {
        sp,
        spp,
        states,
        members,
        transitions,
        pending,
        lines,
        scratch,
        output,
    };
    resume_in(&mut memory, image, book)
}

// An image is read, a book goes on from it, and the next image is written.
pub fn resume_save(
    image: &[u8],
    book: &[u8],
    next: &mut [u8],
    sp: &mut [u32],
    spp: &mut [u32],
    states: &mut [u32],
    members: &mut [u32],
    transitions: &mut [u32],
    pending: &mut [u32],
    scratch: &mut [u32],
    output: &mut [u8],
) -> Result<(usize, usize), Stop>
    ensures { ResumeSaveEntry
        (lent_of
        (slices sp.old spp.old states.old members.old
        transitions.old pending.old scratch.old output.old))
        image.now book.now
        (slices sp.old spp.old states.old members.old
        transitions.old pending.old scratch.old output.old)
        next.old (number_of result) (text_line_of result) (length_of result) (image_length_of result)
        (slices sp.new spp.new states.new members.new
        transitions.new pending.new scratch.new output.new)
        next.new }
{
    let at = LINES.min(scratch.len());
    let (lines, scratch) = scratch.split_at_mut(at);
    let mut memory = Memory {
        sp,
        spp,
        states,
        members,
        transitions,
        pending,
        lines,
        scratch,
        output,
    };
    save_in(&mut memory, Some(image), book, next)
}
