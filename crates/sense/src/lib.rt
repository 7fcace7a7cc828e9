#![tactic(auto)]

// What a query says, and that its answers are the findings: definitions and theorems only. It has no function.
