//! Tests of public calls that no row of the program shows. Each module tests the calls of one library.
#![tactic(auto)]

#[cfg(test)]
mod accounts;
#[cfg(test)]
mod disks;
#[cfg(test)]
mod documents;
#[cfg(test)]
mod forms;
#[cfg(test)]
mod links;
#[cfg(test)]
mod literals;
#[cfg(test)]
mod schemas;
#[cfg(test)]
mod texts;
#[cfg(test)]
mod vectors;
#[cfg(test)]
mod visits;
