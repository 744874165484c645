//! Renders and fades, and cuts of a server. A crate with tests is proved once more for them, so the tests of renders stand here, where that
//! costs nothing.
#![tactic(auto)]

#[cfg(test)]
mod cuts;
#[cfg(test)]
mod openings;
#[cfg(test)]
mod renders;
#[cfg(test)]
mod waits;
