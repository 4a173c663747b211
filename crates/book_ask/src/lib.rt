// The queries `live`, `pruned` and `why`: each does its step and writes its answer, whole or not at all. The lists that the steps leave and the cache lie in scratch.
#![tactic(auto)]

ghost use Rattle.std.specs.Prelude.{◌≡◌};
ghost use Rattle.slices.specs.Same.{SameSlice};
ghost use Rattle.book_steps.specs.Reader as Reader;
ghost use Rattle.aut_sets.specs.Lent.{SameLent};
ghost use Rattle.aut_query_stage.specs.Lent.{QueryAsked};
ghost use Rattle.book_ask.specs.Clauses.{PostAsk, PostWhy};

use aut_relations::Aut;
use book_memory::Setting;
use book_writer::Output;
use refusal::Refusal;

pub fn ask_live(
    aut: &mut Aut,
    setting: Setting,
    out: &mut Output,
    name: &[u8],
    x: u32,
) -> Result<(), Refusal>
    requires { QueryAsked setting.config aut.old x }
    ensures keeps { SameLent aut.old aut.new }
    ensures bytes { SameSlice out.old.bytes out.new.bytes }
    ensures asked { PostAsk setting Reader.live name.now x result aut.old aut.new out.old out.new }
{
    let config = setting.config;
    let live = aut_pruned::live_packets(aut, config, x)?;
    let k = aut_sets::size(aut, config, live);
    out.live_answer(name, k, config.fields)
}

pub fn ask_pruned(
    aut: &mut Aut,
    setting: Setting,
    out: &mut Output,
    name: &[u8],
    x: u32,
) -> Result<(), Refusal>
    requires { QueryAsked setting.config aut.old x }
    ensures keeps { SameLent aut.old aut.new }
    ensures bytes { SameSlice out.old.bytes out.new.bytes }
    ensures asked { PostAsk setting Reader.pruned name.now x result aut.old aut.new out.old out.new }
{
    let config = setting.config;
    let m = aut_pruned::delta_pruned(aut, config, x)?;
    book_pruned::pruned_answer(aut, config, out, name, m)
}

// the answer does not print the name of the line
pub fn ask_why(aut: &mut Aut, setting: Setting, out: &mut Output, x: u32) -> Result<(), Refusal>
    requires { QueryAsked setting.config aut.old x }
    ensures keeps { SameLent aut.old aut.new }
    ensures bytes { SameSlice out.old.bytes out.new.bytes }
    ensures asked { PostWhy setting x result aut.old aut.new out.old out.new }
{
    let config = setting.config;
    let (n, hops) = aut_why::why_sets(aut, config, x)?;
    book_why::why_answer(aut, config, out, n, hops, x)?;
    aut_why_words::clear(aut, n);
    Ok(())
}
