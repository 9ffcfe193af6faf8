// Tests of the sets and the mappings, at both sides of every edge.
#![tactic(auto)]

#[cfg(test)]
mod arming;
#[cfg(test)]
mod places;
#[cfg(test)]
mod registers;
#[cfg(test)]
mod setup;
