// Trials of the streets over both models, step by step.
#![tactic(auto)]

#[cfg(test)]
mod tests;
