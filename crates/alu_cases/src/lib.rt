// Cases of the processor's arithmetic, mostly rows of tables.
#![tactic(auto)]

#[cfg(test)]
mod bytes;
#[cfg(test)]
mod counts;
#[cfg(test)]
mod decimals;
#[cfg(test)]
mod jumps;
#[cfg(test)]
mod names;
#[cfg(test)]
mod places;
#[cfg(test)]
mod products;
#[cfg(test)]
mod rows;
#[cfg(test)]
mod words;
