// Worked cases of the rules and of the services, as one table.
#![tactic(auto)]

ghost use Rattle.cases.specs.Cases.{Cases};

// Promises that every line of the table holds, and does nothing.
pub fn cases_hold()
    ensures { Cases }
{}
