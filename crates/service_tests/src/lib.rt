// Examples of the services' and the ballots' edges.
#![tactic(auto)]

#[cfg(test)]
mod counts;
#[cfg(test)]
mod edges;
