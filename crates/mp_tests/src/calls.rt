//! Tests of what no run of the program shows: errors in words, and calls that no command makes. They are a crate of their own since a crate with
//! tests is proved twice.

#[cfg(test)]
mod phases;
#[cfg(test)]
mod waves;
#[cfg(test)]
mod words;
