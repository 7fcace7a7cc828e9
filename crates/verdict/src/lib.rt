#![tactic(auto)]

// What is listed and printed for a sheet, in the published reading: definitions and theorems only. It has no function.
