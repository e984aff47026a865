// Cases of lines and files that are read or refused, each with its number, line and column. Run as tests only.

#![tactic(auto)]

#[cfg(test)]
mod accounts;
#[cfg(test)]
mod common;
#[cfg(test)]
mod lines;
#[cfg(test)]
mod proposals;
#[cfg(test)]
mod protocols;
