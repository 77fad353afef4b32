// What is stated of a valuation, beside the contracts of `valuation`: every member's line with its figures and demand 3
// of them (RULES sections 10, 11 and 13), which lines the members are, the plan's lines to the last byte, that a member's
// line depends on no other, how near the totals and the supplemental cost are, and that what is printed reads back.
// specs/Statements.antt has them; specs/Engines.antt, that both engines give the same bytes and refusals (rule 9.12); and
// specs/Figures.antt the figures worked by hand (RULES section 14).
// No program computes with them, so this crate has no code.
#![tactic(auto)]
