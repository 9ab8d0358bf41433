// Trials of the whole way from a sheet to its verdict.
#![tactic(auto)]

#[cfg(test)]
mod tests;
