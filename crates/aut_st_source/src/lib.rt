// A transition list that is walked: where it is, and its transitions one by one.
#![tactic(auto)]

ghost use Rattle.std.specs.Prelude.{◌≡◌, ◌+◌, ◌*◌, ◌<◌, ◌≤◌, length, get_or};
ghost use Rattle.aut_steps.specs.Tables.{words};
ghost use Rattle.netkat_steps.specs.ListSteps.{edge};
ghost use Rattle.aut_st_steps.specs.Edges.{edges};
ghost use Rattle.aut_st_edges.specs.Clauses.{edge_of, Wrote, CopyReady};
ghost use Rattle.aut_st_insert.specs.Clauses as Seen;
ghost use Rattle.aut_st_source.specs.Clauses.{stored, scratched, entry_of, EntryIn};
ghost use Rattle.aut_st_source.specs.Stored.{PreFind, PostFind};

use aut_relations::{Aut, Transitions};
use aut_st_edges::Transition;

// a list's first record: among the stored transitions, or in scratch, from record FIRST of st on
#[derive(Clone, Copy)]
pub enum Place {
    Stored(usize),
    Scratch(usize),
}

// a list that is walked
#[derive(Clone, Copy)]
pub struct Source {
    pub place: Place,
    pub length: usize,
}

impl Source {
    // the n transitions of scratch from record `at` on
    pub fn scratch(at: usize, n: usize) -> Source
        ensures { result ≡ scratched at n }
    {
        Source {
            place: Place::Scratch(at),
            length: n,
        }
    }

    // its transition i
    pub fn get(self, aut: &Aut, i: usize) -> Transition
        requires { EntryIn aut.now.transitions.words.now aut.now.scratch.now self i }
        ensures { edge_of result ≡ entry_of self aut.now.transitions.words.now aut.now.scratch.now i }
    {
        match self.place {
            Place::Stored(a) => aut_st_edges::entry(aut.transitions.words, a + i),
            Place::Scratch(a) => aut_st_edges::entry(aut.scratch, a + i),
        }
    }
}

// the n transitions at RESULT go to `to`, to be walked there
pub fn set_aside(words: &mut [u32], n: usize, to: usize) -> Source
    requires { CopyReady words.old Seen.RESULT n to }
    ensures copied { Wrote to n (edges words.old Seen.RESULT n) words.old words.new }
    ensures source { result ≡ scratched to n }
{
    aut_st_edges::copy(words, aut_st_insert::RESULT, n, to);
    Source::scratch(to, n)
}

// a list among the transitions: its first record, and how many
#[derive(Clone, Copy)]
pub struct Span {
    pub start: usize,
    pub count: usize,
}

impl Span {
    // to be walked
    pub fn source(self) -> Source
        ensures { result ≡ stored self.start self.count }
    {
        Source {
            place: Place::Stored(self.start),
            length: self.count,
        }
    }

    // its words
    #[tactic(auto, using(aut_states::proofs::Slices::part))]
    pub fn words<'a>(self, transitions: &'a Transitions) -> &'a [u32]
        requires { 2 * (self.start + self.count) ≤ length transitions.now.words.now }
        ensures { result.now ≡ words transitions.now.words.now (2 * self.start) (2 * self.count) }
    {
        let a = 2 * self.start;
        let n = 2 * self.count;
        &transitions.words[a..a + n]
    }

    // its transition i
    pub fn get(self, aut: &Aut, i: usize) -> Transition
        requires { 2 * (self.start + i) + 1 < length aut.now.transitions.words.now }
        ensures { edge_of result ≡ edge (get_or aut.now.transitions.words.now (2 * (self.start + i)) 0)
            (get_or aut.now.transitions.words.now (2 * (self.start + i) + 1) 0) }
    {
        aut_st_edges::entry(aut.transitions.words, self.start + i)
    }
}

// the list of state y
#[tactic(auto, unfolding(aut_delta_steps::specs::Delta::start_of, aut_delta_steps::specs::Delta::count_of))]
pub fn stored_list(aut: &Aut, y: u32) -> Span
    requires { PreFind aut.now.states.words.now y }
    ensures { PostFind aut.now.states.words.now y result }
{
    Span {
        start: aut.states.word(y, aut_states::word::START) as usize,
        count: aut.states.word(y, aut_states::word::COUNT) as usize - 1,
    }
}
