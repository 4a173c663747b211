// The end of a run: where it has come to, and what is returned once the tables are as 01 leaves them.
#![tactic(auto)]

ghost use Rattle.book_memory.specs.Place.{SameSlices};
ghost use Rattle.book_finish.specs.Clauses as Its;

use book_memory::{Place, Setting};
use refusal::Refusal;

// why a run has stopped: the refusal, the text line, and the output's length of the lines before
#[derive(Clone, Copy)]
pub struct Stop {
    pub refusal: Refusal,
    pub line: usize,
    pub length: usize,
}

// Pending, lines and scratch are zeroed, and after a refusal every table. An answer is the output's length.
pub fn finish(place: &mut Place, went: Result<Setting, Stop>) -> Result<usize, Stop>
    ensures keeps { SameSlices place.old place.new }
    ensures gives { Its.PostFinish went place.old result place.new }
{
    book_begin::clear_work(place);
    match went {
        Err(stop) => {
            book_begin::clear_tables(place);
            Err(stop)
        }
        Ok(_) => Ok(place.output.at),
    }
}
