// Cases of the instruction set: worked examples, and the whole table of codes.
#![tactic(auto)]

#[cfg(test)]
mod examples;
#[cfg(test)]
mod table;
