// Worked cases: rows of one table, with one theorem that every row comes to what it expects.
#![tactic(auto)]

ghost use Rattle.cases.specs.Table.{EveryRowHolds};

#[tactic(auto, unfolding(meaning::specs::Meaning::rounds))]
pub fn every_row_holds()
    ensures { EveryRowHolds }
{}
