//! Tests of images and tables: what is written, read and shown, with values from outside.
#![tactic(auto)]

#[cfg(test)]
mod checks;
#[cfg(test)]
mod entries;
#[cfg(test)]
mod headers;
#[cfg(test)]
mod names;
#[cfg(test)]
mod rows;
#[cfg(test)]
mod tables;
#[cfg(test)]
mod views;
#[cfg(test)]
mod written_images;
#[cfg(test)]
mod written_tables;
