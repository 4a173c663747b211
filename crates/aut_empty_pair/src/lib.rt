// A pair of is_empty of aut.rs: its fresh packets are seen, end a string, or go on.
#![tactic(auto)]

ghost use Rattle.aut_sets.specs.Lent.{SameLent};
ghost use Rattle.aut_empty_pair.specs.Clauses.{ExpandAsked, Expands};

use aut_empty_words::Entry;
use aut_relations::Aut;
use aut_states::{Config, word};
use refusal::Refusal;

// fresh packets at a state: they are seen; a string ends here (None), or they go on, and there are so many pending entries
pub fn expand(
    aut: &mut Aut,
    config: Config,
    n: usize,
    fresh: Entry,
) -> Result<Option<usize>, Refusal>
    requires { ExpandAsked config aut.old n fresh.state fresh.packets.0 }
    ensures keeps { SameLent aut.old aut.new }
    ensures gives { Expands config n fresh.state fresh.packets.0 aut.old result aut.new }
{
    let seen = aut_empty_words::seen_at(aut, config, fresh.state);
    let both = aut_sets::union(aut, config, seen, fresh.packets)?;
    let ends = aut_epsilon::epsilon(aut, config, fresh.state)?;
    if aut_sets::has_image(aut, config, fresh.packets, ends) {
        return Ok(None);
    }
    let m = aut_empty_walk::spread(aut, config, n, fresh)?;
    aut_query_calls::put_set(aut, fresh.state, word::SEEN, both);
    Ok(Some(m))
}
