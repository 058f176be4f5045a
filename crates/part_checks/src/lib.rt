//! Tests of the small crates: tokens, the generated script, gates, lanes, claims, ports of the system. They stand apart from these
//! crates, so that none of them is proved once more with its tests.
#![tactic(auto)]

#[cfg(test)]
mod claims;
#[cfg(test)]
mod gates;
#[cfg(test)]
mod generated;
#[cfg(test)]
mod lanes;
#[cfg(test)]
mod ports;
#[cfg(test)]
mod tokens;
