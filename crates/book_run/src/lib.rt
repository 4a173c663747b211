// A book: its header, the constants, then line by line; and the public entry over what is lent.
#![tactic(auto)]

ghost use Rattle.book_memory.specs.Place.{SameMemory, SamePlace, SameSlices};
ghost use Rattle.book_steps.specs.Claim.{EntrySpec};
ghost use Rattle.book_run.specs.Clauses as Its;
ghost use Rattle.book_finish.specs.Clauses.{number_of, text_line_of, length_of};
ghost use Rattle.book_run.specs.Clauses.{slices, lent_of};

use book_begin::Header;
use book_finish::Stop;
use book_memory::{LINES, Memory, Place, Setting};
use refusal::Refusal;

// the words of scratch that a book needs
pub const SCRATCH: usize = 6144;

// the most instructions of a book: each has its word in the table of lines
pub const INSTRUCTIONS: usize = LINES;

// ---- the instructions

// the first line of the text: the text behind it
fn turn<'a>(text: &'a [u8], place: &mut Place, setting: Setting) -> Result<&'a [u8], Refusal>
    requires { Its.PreTurn setting place.old }
    ensures keeps { SamePlace place.old place.new }
    ensures gives { Its.PostTurn text.now setting place.old result place.new }
{
    let (c, rest) = book_reader::line_at(text).ok_or(Refusal::Form)?;
    book_line::obey(place, setting, c)?;
    Ok(rest)
}

// From any place in order: the text that is left, its text line, and the instructions left. Tables, lines and output are left as the lines made them.
pub fn go_on(
    text: &[u8],
    place: &mut Place,
    setting: Setting,
    first: usize,
    instructions: usize,
) -> Result<(), Stop>
    requires { Its.PreGo setting place.old first instructions }
    ensures keeps { SamePlace place.old place.new }
    ensures gives { Its.PostGo text.now setting place.old first instructions result place.new }
{
    let mut rest = text;
    let mut line = first;
    let mut left = instructions;
    while !rest.is_empty() {
        let length = place.output.at;
        let stop = |refusal| Stop {
            refusal,
            line,
            length,
        };
        if left == 0 {
            return Err(stop(Refusal::Form));
        }
        rest = turn(rest, place, setting).map_err(stop)?;
        line += 1;
        left -= 1;
    }
    Ok(())
}

// ---- a whole book

// scratch, lent in two, has the words that a book needs
pub fn enough(place: &Place) -> Result<(), Stop>
    ensures { Its.PostEnough place.now result }
{
    if place.lines.words.len() + place.aut.scratch.len() < SCRATCH {
        return Err(Stop {
            refusal: Refusal::Scratch,
            line: 0,
            length: 0,
        });
    }
    Ok(())
}

// the header is read, and the tables are begun: the setting, and the text of the instructions
fn started<'a>(book: &'a [u8], place: &mut Place) -> Result<(Setting, &'a [u8]), Refusal>
    requires { Its.PreStarted place.old }
    ensures keeps { SameSlices place.old place.new }
    ensures gives { Its.PostStarted book.now place.old result place.new }
{
    let (c, rest) = book_reader::line_at(book).ok_or(Refusal::Header)?;
    let (n, budget) = book_reader::header(c).ok_or(Refusal::Header)?;
    if n > 31 {
        return Err(Refusal::Fields);
    }
    let h = Header {
        fields: n as u32,
        budget,
    };
    book_begin::begin(place, h)?;
    Ok((Setting::from(h), rest))
}

// From zeroed tables to the last line. Tables, lines and output are left as the lines made them.
pub fn open(book: &[u8], place: &mut Place) -> Result<Setting, Stop>
    requires { Its.PreOpen place.old }
    ensures keeps { SameSlices place.old place.new }
    ensures gives { Its.PostOpen book.now place.old result place.new }
{
    enough(place)?;
    let (setting, rest) = started(book, place).map_err(|refusal| Stop {
        refusal,
        line: 1,
        length: 0,
    })?;
    go_on(rest, place, setting, 2, INSTRUCTIONS)?;
    Ok(setting)
}

// a whole book over what is lent, scratch in two
fn run_in(memory: &mut Memory, book: &[u8]) -> Result<usize, Stop>
    requires { Its.Table memory.old }
    ensures keeps { SameMemory memory.old memory.new }
    ensures gives { Its.RunsIn book.now memory.old result memory.new }
{
    let mut place = memory.place();
    book_begin::clear(&mut place);
    let went = open(book, &mut place);
    let ran = book_finish::finish(&mut place, went);
    memory.put_back(place);
    ran
}

// One book with one set of lent lengths has one outcome. It asks nothing of what is in the slices.
pub fn run(
    book: &[u8],
    sp: &mut [u32],
    spp: &mut [u32],
    states: &mut [u32],
    members: &mut [u32],
    transitions: &mut [u32],
    pending: &mut [u32],
    scratch: &mut [u32],
    output: &mut [u8],
) -> Result<usize, Stop>
    ensures { EntrySpec
        (lent_of
        (slices sp.old spp.old states.old members.old
        transitions.old pending.old scratch.old output.old))
        book.now
        (slices sp.old spp.old states.old members.old
        transitions.old pending.old scratch.old output.old) (number_of result)
        (text_line_of result) (length_of result)
        (slices sp.new spp.new states.new members.new
        transitions.new pending.new scratch.new output.new) }
{
    let at = LINES.min(scratch.len());
    let (lines, scratch) = scratch.split_at_mut(at);
    let mut memory = Memory {
        sp,
        spp,
        states,
        members,
        transitions,
        pending,
        lines,
        scratch,
        output,
    };
    run_in(&mut memory, book)
}
