// Worked cases of a step: proved of the rules, for every panel, and run.
#![tactic(auto)]

#[cfg(test)]
mod worked;
