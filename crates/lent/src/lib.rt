// How a struct that is lent by a pointer is handed on by value: one law for all functions of a shape. No function.
#![tactic(auto)]
