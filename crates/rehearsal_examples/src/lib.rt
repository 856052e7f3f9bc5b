#![tactic(auto)]

// Examples of running an accepted sheet.
#[cfg(test)]
mod tests;
