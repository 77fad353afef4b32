// The answers of the entries as the plain numbers that the exports for C and Rust give: specs/Answers.antt of a case file and of lines that are
// written, specs/Values.antt of a member. This crate has no code: the crate kuyeshan has the exports.
#![tactic(auto)]
