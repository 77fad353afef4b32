// Amendments to the unit, rules 2.11 to 2.13 and 5.6: what is in force and the plan as it is valued in specs/Force.antt, the rules of each
// after those before it and their order in specs/Judging.antt, and in specs/Statements.antt what an accepted list keeps. This crate has
// no code: the crate amending has it.
#![tactic(auto)]
