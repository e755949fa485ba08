// Examples of the other crates, run as tests: in a crate of their own, so that no other crate is proved a second time.
#![tactic(auto)]

#[cfg(test)]
mod layouts;
#[cfg(test)]
mod making;
#[cfg(test)]
mod rows;
#[cfg(test)]
mod takings;
