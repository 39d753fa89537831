//! Tests of sessions, by what their crate exports. They are a crate of their own since a crate with tests is proved twice.

#[cfg(test)]
mod meeting;
#[cfg(test)]
mod session;
