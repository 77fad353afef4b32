// A number and its text, rules 1.3, 1.4 and 13.4: what is printed of a number is read back as it, and no other bytes are read as it.
// The crate printing says what is printed and the crate fields what is read; specs/Statements.antt has what is stated of the two.
// No program computes with them, so this crate has no code.
#![tactic(auto)]
