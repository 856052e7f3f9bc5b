#![tactic(auto)]

// Examples of refusals, numbers and sheets in bytes.
#[cfg(test)]
mod tests;
