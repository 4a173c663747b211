// The verdict of a search with a budget.
#![tactic(auto)]

#[derive(Clone, Copy)]
pub enum Verdict {
    Yes,
    No,
    Spent,
}
