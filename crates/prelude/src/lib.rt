// No function: lists built from a function, what each element of a list has, numbered rules, marks, and laws that turn a computed
// test into a rule.
#![tactic(auto)]
