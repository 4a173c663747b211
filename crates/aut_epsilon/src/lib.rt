// epsilon of aut.rs: the relation of a state's strings without hops. What is worked out is kept in word 4 of the state. It calls itself on operands, which are nested
// lower; their values are read from the tables when they are put together, so nothing waits in scratch over a call, and nothing on the stack.
#![tactic(auto)]

ghost use Rattle.std.specs.Prelude.{◌≡◌, [], ◌∷◌, ◌+◌, ◌*◌, ◌<◌, length};
ghost use Rattle.refusal.specs.declared.Refusal.TheVariants.{Spp};
ghost use Rattle.spp_steps.specs.Model as M;
ghost use Rattle.spp.specs.Clauses.{op_of};
ghost use Rattle.aut_steps.specs.Tables.{words};
ghost use Rattle.aut_steps.specs.Constructors.{each};
ghost use Rattle.aut_sequence.specs.Clauses.{task_of};
ghost use Rattle.aut_delta_steps.specs.Epsilon as E;
ghost use Rattle.aut_delta_steps.specs.Epsilon.{value_of};
ghost use Rattle.aut_delta_steps.specs.EpsilonReads.{combine_on};
ghost use Rattle.aut_delta_steps.specs.EpsilonDown.{Known};
ghost use Rattle.aut_relations.specs.Lent.{nodes_in, aut_in, Keeps, KeepsExprs, Does, Only};
ghost use Rattle.aut_epsilon.specs.Clauses.{ValuesReady, EachReady, CombineReady};
ghost use Rattle.aut_epsilon.specs.Asked.{EpsilonAsked, FinishAsked, Later};

use aut_operands::Part;
use aut_relations::Aut;
use aut_sequence::Task;
use aut_states::{Config, STATE, States, kind, word};
use refusal::Refusal;
use spp::{Op, SPP};

// what is worked out of a state: an SPP's handle, of another what is kept
#[tactic(auto, unfolding(aut_delta_steps::specs::Epsilon::value_of, aut_delta_steps::specs::Epsilon::epsilon_of))]
pub fn value(states: &States, y: u32) -> SPP
    requires { (12 * y + 11 < length states.now.words.now) × Known states.now.words.now y }
    ensures { value_of states.now.words.now y ≡ result.0 }
{
    if states.kind(y) == kind::SPP {
        return states.relation(y);
    }
    SPP(states.word(y, word::EPSILON) - 1)
}

// ---- values put together

fn apply(aut: &mut Aut, config: Config, op: Op, x: u32, y: u32) -> Result<SPP, Refusal>
    requires { ValuesReady config.fields aut.old (x ∷ y ∷ []) }
    ensures keeps { KeepsExprs aut.old aut.new }
    ensures only { Only Spp result }
    ensures gives { Does config.fields 0 0 nodes_in (λ h. h.0)
        (M.apply config.fields (op_of op) config.fields (value_of aut.old.states.words.now x)
        (value_of aut.old.states.words.now y)) aut.old result aut.new }
{
    let a = value(&aut.states, x);
    let b = value(&aut.states, y);
    aut.apply(config, op, a, b)
}

fn relate(aut: &mut Aut, config: Config, task: Task, x: u32, y: u32) -> Result<SPP, Refusal>
    requires { ValuesReady config.fields aut.old (x ∷ y ∷ []) }
    ensures keeps { KeepsExprs aut.old aut.new }
    ensures only { Only Spp result }
    ensures gives { Does config.fields 0 0 nodes_in (λ h. h.0)
        (task_of config.fields task (value_of aut.old.states.words.now x)
        (value_of aut.old.states.words.now y)) aut.old result aut.new }
{
    let a = value(&aut.states, x);
    let b = value(&aut.states, y);
    aut_sequence::relate(aut, config, task, a, b)
}

// from h on, with the values of the k members at from
fn combine_each(
    aut: &mut Aut,
    config: Config,
    op: Op,
    h: SPP,
    from: usize,
    k: usize,
) -> Result<SPP, Refusal>
    requires { EachReady config.fields aut.old h.0 from k }
    ensures keeps { KeepsExprs aut.old aut.new }
    ensures only { Only Spp result }
    ensures gives { Does config.fields 0 0 nodes_in (λ h. h.0)
        (each (λ y g. M.apply config.fields (op_of op) config.fields g
        (value_of aut.old.states.words.now y)) (words aut.old.members.words.now from k) h.0)
        aut.old result aut.new }
{
    let mut g = h;
    for i in 0..k {
        let y = aut.members.words[from + i];
        let b = value(&aut.states, y);
        g = aut.apply(config, op, g, b)?;
    }
    Ok(g)
}

#[tactic(auto, unfolding(aut_delta_steps::specs::EpsilonReads::combine_by, spp_steps::specs::Model::complement))]
fn combine(aut: &mut Aut, config: Config, x: u32) -> Result<SPP, Refusal>
    requires { CombineReady config.fields aut.old x }
    ensures keeps { KeepsExprs aut.old aut.new }
    ensures only { Only Spp result }
    ensures gives { Does config.fields 0 0 nodes_in (λ h. h.0)
        (combine_on config.fields aut.old.states.words.now aut.old.members.words.now x) aut.old
        result aut.new }
{
    let a = aut.states.first(x);
    let b = aut.states.second(x);
    match aut.states.kind(x) {
        kind::UNION => {
            let zero = config.zero();
            combine_each(aut, config, Op::Union, zero, a as usize, b as usize)
        }
        kind::INTERSECT => {
            let y = aut.members.words[a as usize];
            let first = value(&aut.states, y);
            combine_each(
                aut,
                config,
                Op::Intersect,
                first,
                a as usize + 1,
                b as usize - 1,
            )
        }
        kind::XOR => apply(aut, config, Op::Xor, a, b),
        kind::DIFFERENCE => apply(aut, config, Op::Difference, a, b),
        kind::COMPLEMENT => apply(aut, config, Op::Not, a, a),
        kind::SEQUENCE => relate(aut, config, Task::Sequence, a, b),
        kind::STAR => relate(aut, config, Task::Star, a, a),
        kind::UNTIL => Ok(value(&aut.states, b)),
        kind::TOP => Ok(config.top()),
        _ => Ok(config.zero()),
    }
}

// epsilon of a state whose operands are all worked out
fn finish(aut: &mut Aut, config: Config, x: u32) -> Result<SPP, Refusal>
    requires { FinishAsked config.fields aut.old x }
    ensures keeps { Keeps aut.old aut.new }
    ensures members { aut.new.members ≡ aut.old.members }
    ensures states { aut.new.states.count ≡ aut.old.states.count }
    ensures only { Only Spp result }
    ensures gives { Does config.fields 0 0 aut_in (λ h. h.0) (E.epsilon config.fields x) aut.old
        result aut.new }
{
    let h = combine(aut, config, x)?;
    aut.states.words[STATE * x as usize + word::EPSILON] = h.0 + 1;
    Ok(h)
}

// The tables say how far a run has come: it goes down by reading, and calls itself on a state whose operands are all worked out, so it is
// at most two deep, however x is nested
pub fn epsilon(aut: &mut Aut, config: Config, x: u32) -> Result<SPP, Refusal>
    requires { EpsilonAsked config.fields aut.old x }
    ensures keeps { Keeps aut.old aut.new }
    ensures members { aut.new.members ≡ aut.old.members }
    ensures states { aut.new.states.count ≡ aut.old.states.count }
    ensures only { Only Spp result }
    ensures gives { Does config.fields 0 0 aut_in (λ h. h.0) (E.epsilon config.fields x) aut.old
        result aut.new }
    ensures after { Later config.fields x aut.old result aut.new }
{
    if !aut_operands::is_open(&aut.states, Part::Epsilon, x) {
        return Ok(value(&aut.states, x));
    }
    loop {
        let y = aut_operands::lowest(&aut.states, &aut.members, x);
        if y == x {
            return finish(aut, config, x);
        }
        epsilon(aut, config, y)?;
    }
}
