//! Examples of start records, tables and maps, with results worked out by hand or by the model under tools/.
#![tactic(auto)]

#[cfg(test)]
mod maps;
#[cfg(test)]
mod starts;
#[cfg(test)]
mod tables_filled;
