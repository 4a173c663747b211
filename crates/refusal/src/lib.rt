// Why a run ends before its book does: 01's numbers, and those of the image.
#![tactic(auto)]

ghost use Rattle.std.specs.Prelude.{◌≡◌};
ghost use Rattle.refusal.specs.Numbers.{number_of};

#[derive(Clone, Copy, Debug, PartialEq, Eq)]
pub enum Refusal {
    // whoever writes the book
    Header = 1,
    Fields,
    Form,
    Name,
    Range,
    List,
    Products,
    Nesting,
    TransitionList,
    // whoever lends the tables
    Sp = 20,
    Spp,
    States,
    Members,
    Pending,
    Transitions,
    Scratch,
    Output,
    // whoever hands over an image
    Block = 30,
    Check,
    Record,
    // a book with a `next`, where an image is wanted
    Next,
}

impl Refusal {
    pub fn number(self) -> u32
        ensures { result ≡ number_of self }
    {
        self as u32
    }
}
