// Runs the crates on worked cases: boards of every size, registers by number, records, and sessions with their listings.
#![tactic(auto)]

#[cfg(test)]
mod boards;
#[cfg(test)]
mod records;
#[cfg(test)]
mod registers_by_number;
#[cfg(test)]
mod sessions;
#[cfg(test)]
mod texts;
