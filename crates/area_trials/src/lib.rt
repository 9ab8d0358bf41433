// Trials of areas over the heavy and the counted street.
#![tactic(auto)]

#[cfg(test)]
mod tests;
