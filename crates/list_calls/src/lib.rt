// Tests of lists of calls, on memories, on windows and caches over one another, and from registers to closing, each compared with a plain
// copy.
#![tactic(auto)]

#[cfg(test)]
mod cached;
#[cfg(test)]
mod cached_faults;
#[cfg(test)]
mod cached_runs;
#[cfg(test)]
mod cached_stacks;
#[cfg(test)]
mod cached_steps;
#[cfg(test)]
mod copy;
#[cfg(test)]
mod faults;
#[cfg(test)]
mod held;
#[cfg(test)]
mod layer;
#[cfg(test)]
mod list;
#[cfg(test)]
mod marks;
#[cfg(test)]
mod placing;
#[cfg(test)]
mod refusals;
#[cfg(test)]
mod stack;
#[cfg(test)]
mod stacks;
