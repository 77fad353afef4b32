// The rules of a plan, its amendments, its rows and a member, rules 5.3 to 5.6, in the order of the lines: those of the heading, which crate
// `rules` has, and of the table, which `row_rules` has, between them those of the amendments, which crate `amendments` has, then
// those of a member, RULES section 4 and rule 7.8, by itself and after the lines before it. specs/Acceptance.antt has the first
// refusal of each; specs/Valued.antt that the plan as it is valued is accepted too; specs/Rising.antt the law of rule 7.9 for a plan
// that is accepted; and specs/Lone.antt that rule 7.10 refuses no lone member. This crate has no code: the crate acceptance finds the
// first refusal. What an accepted plan and member keep is in proofs/Facts.antt.
#![tactic(auto)]
