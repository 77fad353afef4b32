// What a case file is, RULES sections 1 to 5 and 12: its lines, folded by one step. specs/Terms.antt and specs/Lines.antt
// have the forms of the lines, specs/Step.antt what one line does after those before it, specs/Walk.antt the whole file,
// specs/Kept.antt and specs/Answers.antt what is stated of it. No program computes with them, so this crate has no code:
// the crates heading, amend_lines, rows, members and whole_walk have the code that does the walk.
#![tactic(auto)]
