// Tests at the edges: one suite over any memory, and what belongs to one part of the library alone.
#![tactic(auto)]

#[cfg(test)]
mod bottoms;
#[cfg(test)]
mod columns;
#[cfg(test)]
mod dense_line;
#[cfg(test)]
mod faults;
#[cfg(test)]
mod lists;
#[cfg(test)]
mod messages;
#[cfg(test)]
mod suite;
#[cfg(test)]
mod windows;
