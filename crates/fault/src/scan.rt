ghost use Rattle.std.specs.Prelude.{◌≡◌, List, take, Option};
ghost use Rattle.fault.specs.Scan.{first_bad, FirstBad};

// A record of a list that has a rule of its own, over a context and the records above it. The context is a
// parameter, so that a crate can give the rule of a record that it does not own.
pub trait Rule<C>: Sized {
    type Why: Drop;

    ghost broken: { C → List Self → Self → Option Self.Why };

    // Why the record breaks its rule, or nothing.
    fn judge(&self, above: &[Self], ctx: &C) -> Option<Self::Why>
        ensures { result ≡ broken ctx.now above.now self.now };
}

// The first record that breaks its rule, by its place in the list, and why.
pub fn first_bad<C, R: Rule<C>>(records: &[R], ctx: &C) -> Option<(usize, R::Why)>
    ensures value { result ≡ first_bad (λ i x. R.broken ctx.now (take i records.now) x) 0 records.now }
    ensures first { FirstBad (λ i x. R.broken ctx.now (take i records.now) x) records.now result }
{
    for (i, record) in records.iter().enumerate() {
        if let Some(why) = record.judge(&records[..i], ctx) {
            return Some((i, why));
        }
    }
    None
}
