//! Tests of seats, by what their crate exports. They are a crate of their own since a crate with tests is proved twice.

#[cfg(test)]
mod onlooker;
#[cfg(test)]
mod talks;
#[cfg(test)]
mod words;
