// No code, and no crate stands on this one: document 01's starred cases, the values that no call answers, and document 01's report,
// each computed from the definitions by the checker.
#![tactic(auto)]
