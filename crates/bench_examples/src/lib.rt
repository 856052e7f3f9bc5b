#![tactic(auto)]

// Examples of runs, apart from the bench so that its proof is not done twice.
#[cfg(test)]
mod tests;
