// Examples over the whole library, run as tests.
#![tactic(auto)]

#[cfg(test)]
mod collections;
#[cfg(test)]
mod kinds;
