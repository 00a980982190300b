//! Tests of a store over a disk that fails or loses power.
//!
//! The store is that of fc_sql, over two files in memory. Each test saves the forty updates of
//! `updates`. In turn each write and each sync fails, or the power is cut there. Then a store is
//! started over what the files hold. Its slots have to be those that the saves before the failure
//! left, perhaps with the one update that was under way.
#![tactic(auto)]

#[cfg(test)]
mod cut_tests;
#[cfg(test)]
mod disk;
#[cfg(test)]
mod failure_tests;
#[cfg(test)]
mod replay;
#[cfg(test)]
mod starts;
#[cfg(test)]
mod trace;
#[cfg(test)]
mod updates;
