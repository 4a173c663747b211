// is_empty of aut.rs: whether a state has no string, by a search with a budget of pairs.
#![tactic(auto)]

ghost use Rattle.std.specs.Prelude.{OnOk};
ghost use Rattle.aut_query_stage.specs.Layer.{Zeroed};
ghost use Rattle.aut_query_stage.specs.Lent.{QueryAsked};
ghost use Rattle.aut_sets.specs.Lent.{SameLent};
ghost use Rattle.aut_empty_turn.specs.Clauses.{SeekingIn};
ghost use Rattle.aut_empty.specs.Clauses.{Empties};
ghost use Rattle.aut_empty.specs.Parts.{Searches};

use aut_empty_words::Entry;
use aut_relations::Aut;
use aut_states::Config;
use refusal::Refusal;
pub use verdict::Verdict;

// pairs are taken while there are any and the budget lasts: the verdict, the pairs taken, and the pending entries that are left
fn search(
    aut: &mut Aut,
    config: Config,
    budget: u64,
    first: usize,
) -> Result<(Verdict, u64, usize), Refusal>
    requires { SeekingIn config aut.old first }
    ensures keeps { SameLent aut.old aut.new }
    ensures gives { Searches config budget first aut.old result aut.new }
{
    let mut n = first;
    let mut count = 0;
    while n > 0 {
        if count >= budget {
            return Ok((Verdict::Spent, count, n));
        }
        count += 1;
        let Some(m) = aut_empty_turn::turn(aut, config, n)? else {
            return Ok((Verdict::No, count, n - 1));
        };
        n = m;
    }
    Ok((Verdict::Yes, count, 0))
}

// the verdict and the pairs taken
pub fn is_empty(
    aut: &mut Aut,
    config: Config,
    budget: u64,
    x: u32,
) -> Result<(Verdict, u64), Refusal>
    requires { QueryAsked config aut.old x }
    ensures keeps { SameLent aut.old aut.new }
    ensures pending { OnOk result (Zeroed aut.new.pending.now) }
    ensures gives { Empties config budget x aut.old result aut.new }
{
    let one = sp::one_at_depth(config.fields);
    let all = Entry {
        state: x,
        packets: one,
    };
    let first = aut_empty_words::put(aut, 0, all).ok_or(Refusal::Pending)?;
    let (verdict, count, n) = search(aut, config, budget, first)?;
    aut_empty_words::clear_seen(aut);
    aut_empty_words::clear_pending(aut, n);
    Ok((verdict, count))
}
