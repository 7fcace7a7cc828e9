#![tactic(auto)]

// The published reading: definitions and theorems only. It has no function.
