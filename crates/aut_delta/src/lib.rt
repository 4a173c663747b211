// delta of aut.rs: a state's transition list, stored behind those already there; words 5 and 6 of the state say where. It calls itself on operands, which are nested lower; their lists
// are read from the tables when they are put together, so nothing waits in scratch over a call, and nothing on the stack.
#![tactic(auto)]

ghost use Rattle.std.specs.Prelude.{◌≡◌};
ghost use Rattle.aut_relations.specs.Lent.{Keeps};
ghost use Rattle.aut_delta_stage.specs.OnTables.{KeepsStore};
ghost use Rattle.aut_delta.specs.Clauses.{DeltaAsked, Deltas};
ghost use Rattle.aut_delta.specs.Readings.{EnterAsked, star_quit, unless_entered, DescendAsked, EndsBy, FinishAsked, Enters};
ghost use Rattle.aut_delta_steps.specs.DeltaReads as M;

use aut_operands::Part;
use aut_relations::Aut;
use aut_sequence::Task;
use aut_states::{Config, kind};
use refusal::Refusal;

// the star of the epsilon of a
fn enter_star(aut: &mut Aut, config: Config, a: u32) -> Result<(), Refusal>
    requires { EnterAsked config aut.old a }
    ensures keeps { Keeps aut.old aut.new }
    ensures members { aut.new.members ≡ aut.old.members }
    ensures states { aut.new.states.count ≡ aut.old.states.count }
    ensures gives { Enters config (star_quit config.fields a) aut.old result aut.new }
{
    let e = aut_epsilon::epsilon(aut, config, a)?;
    aut_sequence::relate(aut, config, Task::Star, e, e)?;
    Ok(())
}

// before the operands' lists: of a Sequence the epsilon of its first operand, of a Star the star of it
fn enter(aut: &mut Aut, config: Config, x: u32) -> Result<(), Refusal>
    requires { EnterAsked config aut.old x }
    ensures keeps { Keeps aut.old aut.new }
    ensures members { aut.new.members ≡ aut.old.members }
    ensures states { aut.new.states.count ≡ aut.old.states.count }
    ensures gives { Enters config (M.enter config.fields x) aut.old result aut.new }
{
    let a = aut.states.first(x);
    match aut.states.kind(x) {
        kind::SEQUENCE => {
            aut_epsilon::epsilon(aut, config, a)?;
            Ok(())
        }
        kind::STAR => enter_star(aut, config, a),
        _ => Ok(()),
    }
}

// .. unless its place i is one of those already entered
fn enter_new(aut: &mut Aut, config: Config, x: u32, i: usize, entered: usize) -> Result<(), Refusal>
    requires { EnterAsked config aut.old x }
    ensures keeps { Keeps aut.old aut.new }
    ensures members { aut.new.members ≡ aut.old.members }
    ensures states { aut.new.states.count ≡ aut.old.states.count }
    ensures gives { Enters config (unless_entered config.fields x i entered) aut.old result aut.new }
{
    if i < entered {
        return Ok(());
    }
    enter(aut, config, x)
}

// from x down along first operands that have no list, to a state of which all have one; those above it are entered, but for the first `entered` of them. Where it ends, and how many are above
fn descend(aut: &mut Aut, config: Config, x: u32, entered: usize) -> Result<(u32, usize), Refusal>
    requires { DescendAsked config aut.old x }
    ensures keeps { Keeps aut.old aut.new }
    ensures members { aut.new.members ≡ aut.old.members }
    ensures states { aut.new.states.count ≡ aut.old.states.count }
    ensures gives { EndsBy config x entered aut.old result aut.new }
{
    let mut y = x;
    let mut i = 0;
    while let Some(z) = aut_operands::open_operand(&aut.states, &aut.members, Part::Delta, y) {
        enter_new(aut, config, y, i, entered)?;
        y = z;
        i += 1;
    }
    Ok((y, i))
}

// the list is put together, and stored
fn finish(aut: &mut Aut, config: Config, x: u32) -> Result<(), Refusal>
    requires { FinishAsked config aut.old x }
    ensures keeps { KeepsStore aut.old aut.new }
    ensures gives { Deltas config x aut.old result aut.new }
{
    enter(aut, config, x)?;
    let m = aut_delta_kinds::together(aut, config, x)?;
    aut_delta_keep::keep_list(aut, x, m)
}

// The tables say how far a run has come: it goes down by reading, and calls itself on a state whose operands all have their lists, so it is at most two deep, however x is nested.
pub fn delta(aut: &mut Aut, config: Config, x: u32) -> Result<(), Refusal>
    requires { DeltaAsked config aut.old x }
    ensures keeps { KeepsStore aut.old aut.new }
    ensures gives { Deltas config x aut.old result aut.new }
{
    let mut entered = 0;
    while aut_operands::is_open(&aut.states, Part::Delta, x) {
        let (y, i) = descend(aut, config, x, entered)?;
        if y == x {
            return finish(aut, config, x);
        }
        delta(aut, config, y)?;
        entered = i;
    }
    Ok(())
}
