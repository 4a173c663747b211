// The operands of a state as they are read, and the way down to what is not worked out. epsilon and delta go down a rule by reading the tables, so nothing waits over a call.
#![tactic(auto)]

ghost use Rattle.std.specs.Prelude.{◌≡◌, ◌+◌, ◌*◌, ◌<◌, length};
ghost use Rattle.aut_delta_steps.specs.EpsilonDown.{Way};
ghost use Rattle.aut_operands.specs.Clauses.{operands_of, Inside, Told, Looks, Next, Descends};

use aut_states::{Members, STATE, States, kind, word};

// what is worked out of a state
#[derive(Clone, Copy)]
pub enum Part {
    Epsilon,
    Delta,
}

// ---- operands

fn operands<'a>(states: &'a States, members: &'a Members, part: Part, x: u32) -> &'a [u32]
    requires { Inside states.now.words.now members.now.words.now x }
    ensures { operands_of part states.now.words.now members.now.words.now x ≡ result.now }
{
    let at = STATE * x as usize + word::FIRST;
    match states.kind(x) {
        kind::UNION | kind::INTERSECT => states.list(members, x),
        kind::XOR | kind::DIFFERENCE | kind::SEQUENCE => &states.words[at..at + 2],
        kind::COMPLEMENT | kind::STAR => &states.words[at..at + 1],
        kind::UNTIL => match part {
            // epsilon reads the second alone
            Part::Epsilon => &states.words[at + 1..at + 2],
            Part::Delta => &states.words[at..at + 2],
        },
        _ => &states.words[at..at],
    }
}

// ---- the way down

// y is not worked out: of a relation nothing is to be done for epsilon
pub fn is_open(states: &States, part: Part, y: u32) -> bool
    requires { 12 * y + 11 < length states.now.words.now }
    ensures { Told part states.now.words.now y result }
{
    match part {
        Part::Epsilon => { states.kind(y) != kind::SPP && states.word(y, word::EPSILON) == 0 }
        Part::Delta => states.word(y, word::COUNT) == 0,
    }
}

// the first operand that is not worked out; None: all are
pub fn open_operand(states: &States, members: &Members, part: Part, x: u32) -> Option<u32>
    requires { Looks part states.now.words.now members.now.words.now x }
    ensures { Next part states.now.words.now members.now.words.now x result }
{
    let operands = operands(states, members, part, x);
    operands
        .iter()
        .find(|y| is_open(states, part, **y))
        .copied()
}

// for epsilon: from x down along first operands that are not worked out, to a state of which all are
pub fn lowest(states: &States, members: &Members, x: u32) -> u32
    requires { Descends states.now.words.now members.now.words.now x }
    ensures { Way states.now.words.now members.now.words.now result x }
{
    let mut y = x;
    while let Some(z) = open_operand(states, members, Part::Epsilon, y) {
        y = z;
    }
    y
}
