// A line of a book behind the first: what it is told to do (book_place) is done, and what it stands for is kept in the table of lines.
#![tactic(auto)]

ghost use Rattle.book_memory.specs.Place.{SamePlace};
ghost use Rattle.book_line.specs.Clauses.{PreAskLine, PostAskLine, PrePerform, PostPerform, PreObey, PostObey};

use book_memory::{Place, Setting};
use book_place::Told;
use book_reader::{Cursor, Query};
use book_writer::Output;
use refusal::Refusal;

// a query of line a, whose name is its number; no later line can name the query
fn ask_line(
    place: &mut Place,
    setting: Setting,
    query: Query,
    a: usize,
    x: u32,
) -> Result<(), Refusal>
    requires { PreAskLine setting place.old x }
    ensures keeps { SamePlace place.old place.new }
    ensures gives { PostAskLine setting place.old query a x result place.new }
{
    let mut digits = [0u8; 20];
    let mut name = Output {
        bytes: &mut digits,
        at: 0,
    };
    name.put_decimal(a as u64);
    let n = name.at;
    book_query::ask(
        &mut place.aut,
        setting,
        &mut place.output,
        query,
        &digits[..n],
        x,
    )?;
    place.lines.add(None);
    Ok(())
}

fn perform(place: &mut Place, setting: Setting, told: Told) -> Result<(), Refusal>
    requires { PrePerform setting place.old told }
    ensures keeps { SamePlace place.old place.new }
    ensures gives { PostPerform setting place.old told result place.new }
{
    match told {
        Told::Makes(line) => book_place::make_line(place, setting.config, line),
        Told::Asks(query, a, x) => ask_line(place, setting, query, a, x),
    }
}

// the line at c
pub fn obey(place: &mut Place, setting: Setting, c: Cursor) -> Result<(), Refusal>
    requires { PreObey setting place.old }
    ensures keeps { SamePlace place.old place.new }
    ensures gives { PostObey setting place.old c.entry result place.new }
{
    let said = book_reader::instruction(c);
    let told = book_place::tell(place, setting.config, said)?;
    perform(place, setting, told)
}
