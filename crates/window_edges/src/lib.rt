// Tests of the opening of windows, at both sides of every edge.
#![tactic(auto)]

#[cfg(test)]
mod boards;
#[cfg(test)]
mod faults;
#[cfg(test)]
mod frames;
#[cfg(test)]
mod mappings;
#[cfg(test)]
mod memories;
#[cfg(test)]
mod reasons;
#[cfg(test)]
mod setup;
#[cfg(test)]
mod tables;
