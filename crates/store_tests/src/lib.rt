//! Tests of the store and of the top call: what no script can show, since a call of the disk, the source or the sink must fail, or
//! a file must be damaged.
#![tactic(auto)]

#[cfg(test)]
mod committing;
#[cfg(test)]
mod opening;
#[cfg(test)]
mod running;
#[cfg(test)]
mod submitting;
