//! Examples of local rules, lifts, layers, named maps and a user's map, with results worked out by hand or by the model under tools/.
#![tactic(auto)]

#[cfg(test)]
mod lifts;
#[cfg(test)]
mod local_rules;
#[cfg(test)]
mod named;
#[cfg(test)]
mod outcomes;
#[cfg(test)]
mod runs;
#[cfg(test)]
mod stacks;
#[cfg(test)]
mod users_map;
