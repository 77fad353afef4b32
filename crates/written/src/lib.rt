// The case file of a case, rules 13.6 to 13.9: the bytes that write a plan, its amendments, its rows and its members. specs/Written.antt
// has the text, made of the case's numbers by what prints numbers, and no part of it knows of reading; specs/Statements.antt that
// reading and writing undo each other. No program computes with them, so this crate has no code: the crate writer has it.
#![tactic(auto)]
