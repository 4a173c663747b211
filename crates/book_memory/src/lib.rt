// All that is lent for a book: the tables, the lines so far, the output; and a place of a book that runs, which has the counts with them.
#![tactic(auto)]

ghost use Rattle.std.specs.Prelude.{◌≡◌, [], ◌∷◌, ◌++◌, ◌+◌, ◌≤◌, ◌<◌, IfSome, length, get_or, set};
ghost use Rattle.std.proofs.Math.Option.{none};
ghost use Rattle.slices.specs.Same.{SameSlice};
ghost use Rattle.book_memory.specs.Place.{stands_for, word_of, lines_at, memory_of};

use aut_relations::{Aut, Transitions};
use aut_states::{Config, Members, States};
use book_writer::Output;
use sp::SPstore;
use spp::SPPstore;

// The most lines of a book, and the words at the front of scratch that are lent for them. Behind them lies what the steps work in.
pub const LINES: usize = 2048;

// a book's config, and the budget of its searches
#[derive(Clone, Copy)]
pub struct Setting {
    pub config: Config,
    pub budget: u64,
}

// the table of lines, a constructor line's state + 1, a query's 0; and how many lines there are so far
#[derive(Drop)]
pub struct Lines<'a> {
    pub words: &'a mut [u32],
    pub count: usize,
}

impl Lines<'_> {
    // a line more: a constructor line's state, or none for a query
    pub fn add(&mut self, line: Option<u32>)
        requires room { self.old.count < length self.old.words.now }
        requires fits { IfSome line (λ x. x < 4294967295) }
        ensures keeps { SameSlice self.old.words self.new.words }
        ensures words { self.new.words.now ≡ set self.old.words.now self.old.count (word_of line) }
        ensures count { self.new.count ≡ self.old.count + 1 }
        ensures lines { lines_at self.new ≡ lines_at self.old ++ stands_for (word_of line) ∷ [] }
    {
        self.words[self.count] = line.map_or(0, |x| x + 1);
        self.count += 1;
    }

    // the state that line i stands for: none of a query, nor where there is no line yet
    pub fn get(&self, i: usize) -> Option<u32>
        requires { self.now.count ≤ length self.now.words.now }
        ensures { get_or (lines_at self.now) i none ≡ stands_for (word_of result) }
    {
        self.words[..self.count].get(i)?.checked_sub(1)
    }
}

// a place in a book that runs
#[derive(Drop)]
pub struct Place<'a> {
    pub aut: Aut<'a>,
    pub lines: Lines<'a>,
    pub output: Output<'a>,
}

// the slices lent, scratch in two
#[derive(Drop)]
pub struct Memory<'a> {
    pub sp: &'a mut [u32],
    pub spp: &'a mut [u32],
    pub states: &'a mut [u32],
    pub members: &'a mut [u32],
    pub transitions: &'a mut [u32],
    pub pending: &'a mut [u32],
    pub lines: &'a mut [u32],
    pub scratch: &'a mut [u32],
    pub output: &'a mut [u8],
}

impl<'a> Memory<'a> {
    // the slices as a place with no records, lines or output; until they are put back there are none here
    pub fn place(&mut self) -> Place<'a>
        ensures { self.old ≡ memory_of result }
    {
        Place {
            aut: Aut {
                sp: SPstore {
                    nodes: std::mem::take(&mut self.sp),
                    count: 0,
                },
                spp: SPPstore {
                    nodes: std::mem::take(&mut self.spp),
                    count: 0,
                    fields: 0,
                },
                states: States {
                    words: std::mem::take(&mut self.states),
                    count: 0,
                },
                members: Members {
                    words: std::mem::take(&mut self.members),
                    count: 0,
                },
                transitions: Transitions {
                    words: std::mem::take(&mut self.transitions),
                    count: 0,
                },
                pending: std::mem::take(&mut self.pending),
                scratch: std::mem::take(&mut self.scratch),
            },
            lines: Lines {
                words: std::mem::take(&mut self.lines),
                count: 0,
            },
            output: Output {
                bytes: std::mem::take(&mut self.output),
                at: 0,
            },
        }
    }

    pub fn put_back(&mut self, place: Place<'a>)
        ensures { self.new ≡ memory_of place.entry }
    {
        let Place { aut, lines, output } = place;
        let Aut {
            sp,
            spp,
            states,
            members,
            transitions,
            pending,
            scratch,
        } = aut;
        self.sp = sp.nodes;
        self.spp = spp.nodes;
        self.states = states.words;
        self.members = members.words;
        self.transitions = transitions.words;
        self.pending = pending;
        self.lines = lines.words;
        self.scratch = scratch;
        self.output = output.bytes;
    }
}
