//! Tests of sockets and bells, with both ends in one process. They stand apart, so that the sockets are proved once.
#![tactic(auto)]

#[cfg(test)]
mod bells;
#[cfg(test)]
mod bytes;
#[cfg(test)]
mod clients;
#[cfg(test)]
mod places;
#[cfg(test)]
mod seat;
