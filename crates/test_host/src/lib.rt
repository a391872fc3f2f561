//! Tests of the host: images made by hand, loaded and run turn by turn.
#![tactic(auto)]

#[cfg(test)]
mod decoded;
#[cfg(test)]
mod dispatched;
#[cfg(test)]
mod images;
#[cfg(test)]
mod one_section;
#[cfg(test)]
mod records;
#[cfg(test)]
mod shown;
#[cfg(test)]
mod vectored;
#[cfg(test)]
mod walked;
