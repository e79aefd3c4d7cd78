// Tests at the edges of the rules, each refusal on both sides of its limit; and sample sales.
#![tactic(auto)]

#[cfg(test)]
mod answers;
#[cfg(test)]
mod awards;
#[cfg(test)]
mod bundles;
#[cfg(test)]
mod closings;
#[cfg(test)]
mod cuts;
#[cfg(test)]
mod files;
#[cfg(test)]
mod messages;
#[cfg(test)]
mod openings;
#[cfg(test)]
mod rows;
#[cfg(test)]
mod runs;
#[cfg(test)]
mod samples;
