// The answer to `pruned`: the lines of the transitions that the step has left in scratch, written whole or not at all.
#![tactic(auto)]

ghost use Rattle.std.specs.Prelude.{◌≡◌, ◌+◌, ◌*◌, ◌≤◌, ◌<◌, length, get_or};
ghost use Rattle.slices.specs.Same.{SameSlice};
ghost use Rattle.aut_relations.specs.Lent.{nodes_in};
ghost use Rattle.netkat_steps.specs.ListSteps.{edge};
ghost use Rattle.aut_st_edges.specs.Clauses.{edge_of};
ghost use Rattle.aut_st_insert.specs.Clauses.{RESULT};
ghost use Rattle.aut_sets.specs.Lent.{OnlyScratch};
ghost use Rattle.book_pruned.specs.Clauses.{PrePairs, PostPair, PostLength, PrePut, PostPairs, PostPruned};

use aut_relations::Aut;
use aut_st_edges::Transition;
use aut_states::Config;
use book_writer::Output;
use refusal::Refusal;

// transition i
fn transition_at(aut: &Aut, i: usize) -> Transition
    requires { 2 * (RESULT + i) + 1 < length aut.now.scratch.now }
    ensures { edge_of result ≡ edge (get_or aut.now.scratch.now (2 * (RESULT + i)) 0)
        (get_or aut.now.scratch.now (2 * (RESULT + i) + 1) 0) }
{
    aut_st_edges::entry(aut.scratch, aut_st_insert::RESULT + i)
}

// of transition i the target, and the number of packet pairs in the label
fn pair_at(aut: &mut Aut, config: Config, m: usize, i: usize) -> (u32, u64)
    requires { PrePairs config.fields (nodes_in aut.old) aut.old.scratch.now m × (i < m) }
    ensures keeps { OnlyScratch aut.old aut.new }
    ensures is { PostPair config.fields (nodes_in aut.old) i result.0 result.1
        aut.old.scratch.now aut.new.scratch.now }
{
    let t = transition_at(aut, i);
    (t.target, aut_sets::pairs(aut, config, t.label))
}

// how long the lines of the m transitions are
fn pairs_length(aut: &mut Aut, config: Config, m: usize) -> usize
    requires { PrePairs config.fields (nodes_in aut.old) aut.old.scratch.now m }
    ensures keeps { OnlyScratch aut.old aut.new }
    ensures is { PostLength config.fields (nodes_in aut.old) m result aut.old.scratch.now
        aut.new.scratch.now }
{
    let mut total = 0;
    for i in 0..m {
        let (target, n) = pair_at(aut, config, m, i);
        total += book_writer::pair_length(target, n);
    }
    total
}

// the lines of the m transitions, for which there is room
fn put_pairs(aut: &mut Aut, config: Config, out: &mut Output, m: usize) -> Result<(), Refusal>
    requires { PrePut config.fields (nodes_in aut.old) aut.old.scratch.now out.old m }
    ensures keeps { OnlyScratch aut.old aut.new }
    ensures bytes { SameSlice out.old.bytes out.new.bytes }
    ensures answers { PostPairs config.fields (nodes_in aut.old) m result aut.old.scratch.now
        aut.new.scratch.now out.old out.new }
{
    for i in 0..m {
        let (target, n) = pair_at(aut, config, m, i);
        out.pair_line(target, n)?;
    }
    Ok(())
}

// the whole answer of `pruned`, for the m transitions at RESULT
pub fn pruned_answer(
    aut: &mut Aut,
    config: Config,
    out: &mut Output,
    name: &[u8],
    m: usize,
) -> Result<(), Refusal>
    requires { PrePairs config.fields (nodes_in aut.old) aut.old.scratch.now m }
    ensures keeps { OnlyScratch aut.old aut.new }
    ensures bytes { SameSlice out.old.bytes out.new.bytes }
    ensures answers { PostPruned config.fields (nodes_in aut.old) name.now m result
        aut.old.scratch.now aut.new.scratch.now out.old out.new }
{
    let n = book_writer::head_length(name, m) + pairs_length(aut, config, m);
    out.room(n)?;
    out.pruned_head(name, m)?;
    put_pairs(aut, config, out, m)
}
