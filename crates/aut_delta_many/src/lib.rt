// The lists of a Union and of an Intersect (delta of aut.rs), joined when every member's list stands in the tables. The list so far stands at RESULT, and waits at
// FIRST while the next one is joined to it; the result stands at RESULT.
#![tactic(auto)]

ghost use Rattle.std.specs.Prelude.{[], ◌+◌, ◌*◌, ◌≤◌, length};
ghost use Rattle.aut_st_steps.specs.Edges.{edges};
ghost use Rattle.aut_delta_steps.specs.Delta.{list_at, union_all, intersect_first};
ghost use Rattle.aut_states.specs.Clauses.{limits_of};
ghost use Rattle.aut_relations.specs.Lent.{Keeps};
ghost use Rattle.aut_st_insert.specs.Clauses as Seen;
ghost use Rattle.aut_st_insert.specs.Clauses.{list_in, GoesList};
ghost use Rattle.aut_st_edges.specs.Clauses.{Wrote};
ghost use Rattle.aut_delta_stage.specs.OnTables.{store_in};
ghost use Rattle.aut_delta_many.specs.Clauses.{lists_at};
ghost use Rattle.aut_delta_many.specs.Joins.{join_one, join_all};
ghost use Rattle.aut_delta_many.specs.Asked.{NextAsked, AllAsked, ManyAsked};

use aut_relations::{Aut, Transitions};
use aut_st_insert::{FIRST, RESULT};
use aut_st_source::{Span, stored_list};
use aut_states::Config;
use refusal::Refusal;

// the operation that joins: the one point where the lists of the two kinds differ
#[derive(Clone, Copy)]
enum Join {
    Union,
    Intersect,
}

// a stored list goes to RESULT
fn take(scratch: &mut [u32], transitions: &Transitions, list: Span)
    requires { (2 * (Seen.RESULT + list.count) ≤ length scratch.old) ×
        (2 * (list.start + list.count) ≤ length transitions.now.words.now) }
    ensures { Wrote Seen.RESULT list.count
        (edges transitions.now.words.now list.start list.count) scratch.old scratch.new }
{
    let at = 2 * RESULT;
    let words = list.words(transitions);
    slices::copy(&mut scratch[at..at + words.len()], words);
}

// the n transitions at RESULT and the list of y
fn join_next(aut: &mut Aut, config: Config, join: Join, n: usize, y: u32) -> Result<usize, Refusal>
    requires { NextAsked config aut.old n y }
    ensures keeps { Keeps aut.old aut.new }
    ensures gives { GoesList config (join_one config.fields (limits_of config.limits) join
        (list_in aut.old n) (list_at (store_in aut.old) y))
        aut.old result aut.new }
{
    let list = stored_list(aut, y);
    let first = aut_st_source::set_aside(aut.scratch, n, FIRST);
    let second = list.source();
    match join {
        Join::Union => aut_st_ops::st_union(aut, config, first, second),
        Join::Intersect => aut_st_ops::st_intersect(aut, config, first, second),
    }
}

// .. and the lists of the k members at `from`
fn join_all(
    aut: &mut Aut,
    config: Config,
    join: Join,
    n: usize,
    from: usize,
    k: usize,
) -> Result<usize, Refusal>
    requires { AllAsked config aut.old n from k }
    ensures keeps { Keeps aut.old aut.new }
    ensures gives { GoesList config (join_all config.fields (limits_of config.limits) join
        (lists_at (store_in aut.old) from k) (list_in aut.old n))
        aut.old result aut.new }
{
    let mut m = n;
    for i in 0..k {
        let y = aut.members.words[from + i];
        m = join_next(aut, config, join, m, y)?;
    }
    Ok(m)
}

// of a Union whose k members stand at `from`: joined from the empty list
#[tactic(auto, unfolding(aut_st_steps::specs::Edges::edges))]
pub fn union_all(aut: &mut Aut, config: Config, from: usize, k: usize) -> Result<usize, Refusal>
    requires { ManyAsked config aut.old from k }
    ensures keeps { Keeps aut.old aut.new }
    ensures gives { GoesList config (union_all config.fields (limits_of config.limits)
        (lists_at (store_in aut.old) from k) []) aut.old result aut.new }
{
    join_all(aut, config, Join::Union, 0, from, k)
}

// of an Intersect: from its first member's list
pub fn intersect_all(aut: &mut Aut, config: Config, from: usize, k: usize) -> Result<usize, Refusal>
    requires { ManyAsked config aut.old from k }
    ensures keeps { Keeps aut.old aut.new }
    ensures gives { GoesList config (intersect_first config.fields (limits_of config.limits)
        (lists_at (store_in aut.old) from k)) aut.old result aut.new }
{
    let y = aut.members.words[from];
    let list = stored_list(aut, y);
    take(aut.scratch, &aut.transitions, list);
    join_all(aut, config, Join::Intersect, list.count, from + 1, k - 1)
}
