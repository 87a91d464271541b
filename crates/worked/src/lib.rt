//! Examples worked through by the definitions that the contracts of the other crates use.
#![tactic(auto)]

ghost use Rattle.worked.specs.Worked.{WorkedFacts};

// At five columns behind the prompt `> `: where texts end, what acts write, which bracket is lit, and what bytes do to wide characters and marks.
pub fn worked_facts()
    ensures { WorkedFacts }
{}
