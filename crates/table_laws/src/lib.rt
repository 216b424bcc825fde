#![tactic(auto)]

// The table program: definitions and theorems alone.
