//! Examples of texts, with results worked out by hand.
#![tactic(auto)]

#[cfg(test)]
mod boards_read;
#[cfg(test)]
mod boards_written;
#[cfg(test)]
mod fields;
#[cfg(test)]
mod large_texts;
#[cfg(test)]
mod records_written;
#[cfg(test)]
mod runs;
#[cfg(test)]
mod scripts_checked;
