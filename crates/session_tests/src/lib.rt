//! Tests of sessions and of what they stand on, through public calls: books, calls, proposals and nudged lines.
#![tactic(auto)]

#[cfg(test)]
mod asks;
#[cfg(test)]
mod books;
#[cfg(test)]
mod calls;
#[cfg(test)]
mod lines;
#[cfg(test)]
mod made;
#[cfg(test)]
mod previews;
