// Tests of reading and writing through windows, at both sides of every edge.
#![tactic(auto)]

#[cfg(test)]
mod counts;
#[cfg(test)]
mod faults;
#[cfg(test)]
mod marks;
#[cfg(test)]
mod places;
#[cfg(test)]
mod scenes;
#[cfg(test)]
mod script;
#[cfg(test)]
mod stacks;
#[cfg(test)]
mod sweep;
