//! Tests of the streams, the disks, the journal and the spelling of entries: what no script can show, since a call must fail, a
//! file must be damaged, or bytes are looked at one by one.
#![tactic(auto)]

#[cfg(test)]
mod disks;
#[cfg(test)]
mod journals;
#[cfg(test)]
mod spellings;
#[cfg(test)]
mod streams;
