//! Tests of re-evaluation, by what its crate exports. They are a crate of their own since a crate with tests is proved twice.

#[cfg(test)]
mod changing;
#[cfg(test)]
mod meeting;
#[cfg(test)]
mod passing;
#[cfg(test)]
mod resuming;
