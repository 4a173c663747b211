// A turn of is_empty of aut.rs: a pair is taken from the pending table, and what is fresh of it goes on.
#![tactic(auto)]

ghost use Rattle.std.specs.Prelude.{◌≡◌, ◌+◌, ◌*◌, ◌<◌, length};
ghost use Rattle.aut_sets.specs.Lent.{OnlyMarks, SameLent};
ghost use Rattle.aut_empty_turn.specs.Clauses.{Takes, TurnAsked, Turns};

use aut_empty_words::Entry;
use aut_relations::Aut;
use aut_states::Config;
use refusal::Refusal;
use sp::SP;

// entry k is taken out
fn take(aut: &mut Aut, k: usize) -> Entry
    requires { 2 * k + 1 < length aut.old.pending.now }
    ensures keeps { OnlyMarks aut.old aut.new }
    ensures states { aut.new.states ≡ aut.old.states }
    ensures gives { Takes aut.old.pending.now k result.state result.packets.0 aut.new.pending.now }
{
    let e = Entry {
        state: aut.pending[2 * k],
        packets: SP(aut.pending[2 * k + 1]),
    };
    aut.pending[2 * k..2 * k + 2].fill(0);
    e
}

// the last pending entry is taken: a string is found (None), or so many entries are left
pub fn turn(aut: &mut Aut, config: Config, n: usize) -> Result<Option<usize>, Refusal>
    requires { TurnAsked config aut.old n }
    ensures keeps { SameLent aut.old aut.new }
    ensures gives { Turns config n aut.old result aut.new }
{
    let k = n - 1;
    let e = take(aut, k);
    let seen = aut_empty_words::seen_at(aut, config, e.state);
    let fresh = aut_sets::difference(aut, config, e.packets, seen)?;
    if sp::is_zero(config.fields, fresh) {
        return Ok(Some(k));
    }
    let fresh = Entry {
        packets: fresh,
        ..e
    };
    aut_empty_pair::expand(aut, config, k, fresh)
}
