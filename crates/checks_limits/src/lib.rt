//! Checks of what is generated or hostile: the longest inputs, lines and texts that a session takes,
//! the largest numbers that a project has, identifiers and PDOs that run out, and streams that come in pieces, fail or
//! stop; and of the
//! calls of a workbench.
#![tactic(auto)]

#[cfg(test)]
mod breaks;
#[cfg(test)]
mod counts;
#[cfg(test)]
mod expect;
#[cfg(test)]
mod failing_readers;
#[cfg(test)]
mod failing_writers;
#[cfg(test)]
mod longest_input;
#[cfg(test)]
mod longest_lines;
#[cfg(test)]
mod narrow;
#[cfg(test)]
mod pieces;
#[cfg(test)]
mod pools;
#[cfg(test)]
mod replies_in_time;
#[cfg(test)]
mod workbench_calls;
