#![tactic(auto)]

// The run promise on schedules: rows as functions of their number, and a machine that reads its rows.
