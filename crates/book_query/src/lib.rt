// The queries of a book: `empty`, which does its step and writes its answer, whole or not at all, and all four by name (the others: book_ask).
#![tactic(auto)]

ghost use Rattle.slices.specs.Same.{SameSlice};
ghost use Rattle.book_steps.specs.Reader as Reader;
ghost use Rattle.aut_sets.specs.Lent.{SameLent};
ghost use Rattle.aut_query_stage.specs.Lent.{QueryAsked};
ghost use Rattle.book_reader.specs.Clauses.{query_of};
ghost use Rattle.book_ask.specs.Clauses.{PostAsk};

use aut_relations::Aut;
use book_memory::Setting;
use book_reader::Query;
use book_writer::Output;
use refusal::Refusal;

pub fn ask_empty(
    aut: &mut Aut,
    setting: Setting,
    out: &mut Output,
    name: &[u8],
    x: u32,
) -> Result<(), Refusal>
    requires { QueryAsked setting.config aut.old x }
    ensures keeps { SameLent aut.old aut.new }
    ensures bytes { SameSlice out.old.bytes out.new.bytes }
    ensures asked { PostAsk setting Reader.empty name.now x result aut.old aut.new out.old out.new }
{
    let (verdict, count) = aut_empty::is_empty(aut, setting.config, setting.budget, x)?;
    out.empty_answer(name, verdict, count)
}

// the query of the line that is named so, whose state is x
pub fn ask(
    aut: &mut Aut,
    setting: Setting,
    out: &mut Output,
    query: Query,
    name: &[u8],
    x: u32,
) -> Result<(), Refusal>
    requires { QueryAsked setting.config aut.old x }
    ensures keeps { SameLent aut.old aut.new }
    ensures bytes { SameSlice out.old.bytes out.new.bytes }
    ensures asked { PostAsk setting (query_of query) name.now x result aut.old aut.new out.old
        out.new }
{
    match query {
        Query::Empty => ask_empty(aut, setting, out, name, x),
        Query::Live => book_ask::ask_live(aut, setting, out, name, x),
        Query::Pruned => book_ask::ask_pruned(aut, setting, out, name, x),
        Query::Why => book_ask::ask_why(aut, setting, out, x),
    }
}
