// No function: formats of bytes described part by part, so that sizes and offsets follow, and the laws of writing and reading them.
#![tactic(auto)]
