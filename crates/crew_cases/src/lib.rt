// Worked cases of crews behind those of one machine: rows of one table, with one theorem that every row comes to what
// it expects.
#![tactic(auto)]

ghost use Rattle.crew_cases.specs.Table.{EveryRowHolds};

pub fn every_row_holds()
    ensures { EveryRowHolds }
{
    cases::every_row_holds();
}
