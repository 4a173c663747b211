// What a program lends for a book (`Tables`), and a book run in such tables: what it came to is told as C gets it. netcheck_entry_c exports it.
#![tactic(auto)]

ghost use Rattle.std.specs.Prelude.{◌≡◌, ◌≤◌};
ghost use Rattle.book_finish.specs.Clauses.{text_line_of};
ghost use Rattle.book_run.specs.Clauses.{slices};
ghost use Rattle.netcheck_entry.specs.Outcome.{outcome_of, Entered};

use book_finish::Stop;

// 01's number (0: answered), the text line, and how many bytes of the output are written
#[repr(C)]
#[derive(Clone, Copy)]
pub struct Outcome {
    pub number: u32,
    pub line: u32,
    pub length: usize,
}

// what the programs lend; book_memory's Memory is it with scratch in two
#[derive(Drop)]
pub struct Tables<'a> {
    pub sp: &'a mut [u32],
    pub spp: &'a mut [u32],
    pub states: &'a mut [u32],
    pub members: &'a mut [u32],
    pub transitions: &'a mut [u32],
    pub pending: &'a mut [u32],
    pub scratch: &'a mut [u32],
    pub output: &'a mut [u8],
}

// the text line has to fit into the struct
pub fn outcome_of(ran: Result<usize, Stop>) -> Outcome
    requires { text_line_of ran ≤ 2050 }
    ensures { result ≡ outcome_of ran }
{
    match ran {
        Ok(length) => Outcome {
            number: 0,
            line: 0,
            length,
        },
        Err(stop) => Outcome {
            number: stop.refusal.number(),
            line: stop.line as u32,
            length: stop.length,
        },
    }
}

pub fn netcheck_run(
    book: &[u8],
    sp: &mut [u32],
    spp: &mut [u32],
    states: &mut [u32],
    members: &mut [u32],
    transitions: &mut [u32],
    pending: &mut [u32],
    scratch: &mut [u32],
    output: &mut [u8],
) -> Outcome
    ensures { Entered book.now
        (slices sp.old spp.old states.old members.old transitions.old pending.old scratch.old output.old)
        result
        (slices sp.new spp.new states.new members.new transitions.new pending.new scratch.new output.new) }
{
    let ran = book_run::run(
        book,
        sp,
        spp,
        states,
        members,
        transitions,
        pending,
        scratch,
        output,
    );
    outcome_of(ran)
}
