// A finished list of delta (aut.rs) stored behind those already there.
#![tactic(auto)]

ghost use Rattle.std.specs.Prelude.{◌≡◌, ◌*◌, ◌/◌, ◌≤◌, length};
ghost use Rattle.slices.specs.Same.{SameSlice};
ghost use Rattle.refusal.specs.Numbers.{outcome};
ghost use Rattle.aut_st_edges.specs.Clauses.{listed};
ghost use Rattle.aut_st_insert.specs.Clauses.{list_in};
ghost use Rattle.aut_delta_steps.specs.Delta as M;
ghost use Rattle.aut_delta_stage.specs.OnTables.{store_in};
ghost use Rattle.aut_delta_keep.specs.Clauses.{table_of, KeepAsked, KeepsOthers, Appends};

use aut_relations::{Aut, Transitions};
use aut_st_insert::RESULT;
use aut_states::{STATE, word};
use refusal::Refusal;

// 01, "Lent tables": no more transitions than this, however large the table is
const MOST: usize = 16777216;

// a list stored behind the transitions in use
fn append(transitions: &mut Transitions, list: &[u32]) -> Result<(), Refusal>
    requires { (2 * transitions.old.count ≤ length transitions.old.words.now) × (2 * (length list.now / 2) ≡ length list.now) }
    ensures lent { SameSlice transitions.old.words transitions.new.words }
    ensures gives { Appends (listed list.now) (table_of transitions.old) result (table_of transitions.new) }
{
    let end = transitions.count + list.len() / 2;
    if end > transitions.words.len() / 2 || end > MOST {
        return Err(Refusal::Transitions);
    }
    let at = 2 * transitions.count;
    slices::copy(&mut transitions.words[at..at + list.len()], list);
    transitions.count = end;
    Ok(())
}

// the m transitions at RESULT are the list of x
pub fn keep_list(aut: &mut Aut, x: u32, m: usize) -> Result<(), Refusal>
    requires { KeepAsked aut.old x m }
    ensures keeps { KeepsOthers aut.old aut.new }
    ensures gives { M.keep_list x (list_in aut.old m) (store_in aut.old) ≡ outcome (λ u. list_in aut.old m) result (store_in aut.new) }
{
    let start = aut.transitions.count;
    // only read, but `&aut.scratch[..]` beside `&mut aut.transitions` is not covered by the borrow checker
    let list = &mut aut.scratch[2 * RESULT..2 * (RESULT + m)];
    append(&mut aut.transitions, list)?;
    let i = x as usize;
    aut.states.words[STATE * i + word::START] = start as u32;
    aut.states.words[STATE * i + word::COUNT] = (m + 1) as u32;
    Ok(())
}
