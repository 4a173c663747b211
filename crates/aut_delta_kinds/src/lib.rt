// The list of a state by kind (delta of aut.rs), put together at RESULT from the stored lists of its operands. Neither delta nor epsilon is called.
#![tactic(auto)]

ghost use Rattle.std.specs.Prelude.{◌≡◌};
ghost use Rattle.aut_steps.specs.Tables.{STAR, kind_of};
ghost use Rattle.aut_relations.specs.Lent.{Keeps};
ghost use Rattle.aut_st_insert.specs.Clauses.{GoesList};
ghost use Rattle.aut_delta_stage.specs.OnTables.{store_in};
ghost use Rattle.aut_delta_kinds.specs.Clauses.{TogetherAsked, together_of, Two};

use aut_relations::Aut;
use aut_sequence::Task;
use aut_st_source::stored_list;
use aut_states::{Config, kind};
use refusal::Refusal;

// a Star: first the star of its operand's epsilon
fn together_star(aut: &mut Aut, config: Config, x: u32) -> Result<usize, Refusal>
    requires { TogetherAsked config aut.old x × (kind_of aut.old.states.words.now x ≡ STAR) }
    ensures keeps { Keeps aut.old aut.new }
    ensures gives { GoesList config (together_of config.fields config.limits (store_in aut.old) x) aut.old result aut.new }
{
    let a = aut.states.first(x);
    let one = stored_list(aut, a);
    let e = aut_epsilon::value(&aut.states, a);
    let h = aut_sequence::relate(aut, config, Task::Star, e, e)?;
    aut_delta_lists::star_list(aut, config, x, h, one)
}

// the kinds of two stored lists
fn together_two(aut: &mut Aut, config: Config, x: u32) -> Result<usize, Refusal>
    requires { TogetherAsked config aut.old x × Two (kind_of aut.old.states.words.now x) }
    ensures keeps { Keeps aut.old aut.new }
    ensures gives { GoesList config (together_of config.fields config.limits (store_in aut.old) x) aut.old result aut.new }
{
    let a = aut.states.first(x);
    let b = aut.states.second(x);
    let one = stored_list(aut, a);
    let two = stored_list(aut, b);
    match aut.states.kind(x) {
        kind::XOR => aut_delta_lists::st_xor(aut, config, one, two),
        kind::DIFFERENCE => aut_delta_lists::st_difference(aut, config, one.source(), two.source()),
        kind::UNTIL => aut_delta_lists::until_list(aut, config, a, b, one, two),
        _ => {
            let e = aut_epsilon::value(&aut.states, a);
            aut_delta_lists::sequence_list(aut, config, b, e, one, two)
        }
    }
}

pub fn together(aut: &mut Aut, config: Config, x: u32) -> Result<usize, Refusal>
    requires { TogetherAsked config aut.old x }
    ensures keeps { Keeps aut.old aut.new }
    ensures gives { GoesList config (together_of config.fields config.limits (store_in aut.old) x) aut.old result aut.new }
{
    let a = aut.states.first(x);
    let b = aut.states.second(x);
    match aut.states.kind(x) {
        kind::SPP => Ok(0),
        kind::UNION => aut_delta_many::union_all(aut, config, a as usize, b as usize),
        kind::INTERSECT => aut_delta_many::intersect_all(aut, config, a as usize, b as usize),
        kind::COMPLEMENT => {
            let one = stored_list(aut, a);
            aut_st_complement::st_complement(aut, config, one.source())
        }
        kind::STAR => together_star(aut, config, x),
        kind::DUP => aut_delta_lists::dup_list(aut, config),
        kind::NEXT => aut_delta_lists::next_list(aut, config, a),
        kind::TOP => aut_delta_lists::top_list(aut, config),
        _ => together_two(aut, config, x),
    }
}
